// A walk in lent words: four for each of its 129 places, then its count, its width and its options.
#![tactic(auto)]

ghost use Rattle.std.specs.Prelude.{◌≡◌, true, ◌+◌, ◌*◌, ◌≤◌, ◌<◌, length};
ghost use Rattle.words.specs.Words.{options_of, options_number, holds_walk, place_at, walk_of, put_place, held};

use number::Key;
use place::{Options, Place};
use walk::Walk;
use walk::start::no_place;

pub const WALK_WORDS: usize = 519;

// The three options as bits of one number.
pub fn options_of(n: u64) -> Options
    ensures { result ≡ options_of n }
{
    Options {
        aliased: n % 2 == 1,
        dataless: n / 2 % 2 == 1,
        skipempty: n / 4 % 2 == 1,
    }
}

fn options_number(o: Options) -> u64
    ensures { result ≡ options_number o }
{
    u64::from(o.aliased) + 2 * u64::from(o.dataless) + 4 * u64::from(o.skipempty)
}

// Whether words hold a walk: there are enough, and the options are no more than three.
#[tactic(auto, unfolding(crate::specs::Words::holds_walk))]
pub fn holds(words: &[u64]) -> bool
    ensures { result ≡ holds_walk words.now }
{
    WALK_WORDS <= words.len() && words[518] <= 7
}

fn place_at(words: &[u64], i: usize) -> Place
    requires { i * 4 + 4 ≤ length words.now }
    ensures { result ≡ place_at words.now i }
{
    let at = i * 4;
    Place {
        value: words[at],
        key: Key {
            high: words[at + 1],
            low: words[at + 2],
        },
        len: words[at + 3],
    }
}

#[tactic(auto, using(crate::proofs::WordLaws::enough))]
pub fn load(words: &[u64]) -> Walk
    requires { holds_walk words.now ≡ true }
    ensures { result ≡ walk_of words.now }
{
    let mut places = [no_place(); 129];
    for (i, place) in places.iter_mut().enumerate() {
        *place = place_at(words, i);
    }
    Walk {
        places,
        count: words[516],
        width: words[517],
        options: options_of(words[518]),
    }
}

fn put_place(words: &mut [u64], i: usize, p: Place)
    requires { i * 4 + 4 ≤ length words.old }
    ensures { words.new ≡ put_place words.old i p }
{
    let at = i * 4;
    words[at] = p.value;
    words[at + 1] = p.key.high;
    words[at + 2] = p.key.low;
    words[at + 3] = p.len;
}

// The walk into the first words; the rest stay.
pub fn store(words: &mut [u64], w: Walk)
    requires { 519 ≤ length words.old }
    ensures { words.new ≡ held words.old w }
{
    for (i, place) in w.places.iter().enumerate() {
        put_place(words, i, *place);
    }
    words[516] = w.count;
    words[517] = w.width;
    words[518] = options_number(w.options);
}
