// The tree walk of verification: the offset of each network with data is recorded in the scratch.
#![tactic(auto)]

ghost use Rattle.std.specs.Prelude.{◌≡◌, true, ◌*◌, ◌/◌, ◌≤◌, length};
ghost use Rattle.handle.specs.Handle.{fits_of};
ghost use Rattle.marks.specs.Marks.{record_each, Below};
ghost use Rattle.graph.specs.Words.{needed};
ghost use Rattle.walk.specs.Calls.{data_section};
ghost use Rattle.recording.specs.Recording.{offsets_of, Roomy, offset_in, offsets_from, done, marked, tour_of};

use handle::Handle;
use marks::{Mark, set_state};
use place::Options;
use refusal::Refusal;
use walk::Range;
use walk::rows::{Halt, NO_DATA, ROW_WORDS, next_rows};
use walk::start::begin;

// The offset in a row's last word.
fn offset_of(word: u64) -> Option<u64>
    ensures { result ≡ offset_in word }
{
    if word == NO_DATA { None } else { Some(word) }
}

#[tactic(auto, unfolding(marks::specs::Marks::record_each))]
fn mark(bits: &mut [u64], offset: Option<u64>)
    requires { Roomy (length bits.old) offset }
    ensures { bits.new ≡ record_each bits.old (offsets_of offset) }
{
    if let Some(place) = offset {
        set_state(bits, place as usize, Mark::Recorded);
    }
}

// The rows that one call fills.
const ROWS: usize = 256;

// The offsets of the first n rows.
fn mark_rows(bits: &mut [u64], rows: &[u64], n: usize)
    requires n_in_bounds { n * 5 ≤ length rows.now }
    requires below { Below (length bits.old / 2 * 64) (offsets_from rows.now 0 n) }
    ensures { bits.new ≡ record_each bits.old (offsets_from rows.now 0 n) }
{
    for row in 0..n {
        mark(bits, offset_of(rows[row * ROW_WORDS + 4]));
    }
}

// The tree walk of verification. It ends behind its last network, or by a refusal.
pub fn record_networks(
    image: &[u8],
    h: Handle,
    bits: &mut [u64],
    budget: u64,
) -> Result<(), Refusal>
    requires image_value { fits_of h (length image.now) ≡ true }
    requires h_in_bounds { needed (length (data_section image.now h)) ≤ length bits.old }
    ensures { done result bits.new ≡ marked (tour_of image.now h budget) bits.old }
{
    let options = Options {
        aliased: false,
        dataless: true,
        skipempty: false,
    };
    let started = begin(image, h, Range::whole(h), options);
    let mut rows = [0; ROWS * ROW_WORDS];
    let mut walk = started.walk;
    let mut left = budget;
    let mut more = 3 * h.nodes;
    // No range or iterator: the walk is carried from call to call, and how a call halts ends the loop.
    loop {
        let filled = next_rows(image, h, walk, &mut rows, left);
        let n = filled.rows;
        if more < n {
            mark_rows(bits, &rows, (more + 1) as usize);
            return Err(Refusal::TooManyNetworks);
        }
        mark_rows(bits, &rows, n as usize);
        match filled.halt {
            Halt::Full => {
                walk = filled.walk;
                left -= filled.taken;
                more -= n;
            }
            Halt::Failed(refusal) | Halt::Refused(refusal) => return Err(refusal),
            Halt::Paused => return Err(Refusal::Budget),
            Halt::End => return Ok(()),
        }
    }
}
