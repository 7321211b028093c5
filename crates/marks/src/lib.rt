// The lent scratch: the state of each place of a section, two bits for each.
#![tactic(auto)]

ghost use Rattle.std.specs.Prelude.{◌≡◌, ◌++◌, ◌+◌, ◌*◌, ◌/◌, ◌^◌, ◌<◌, ◌≤◌, length, drop, replicate};
ghost use Rattle.marks.specs.Marks.{number_of, bit, put, state_at, set_state, marked, next_marked, size_of};

// What verification knows of a place, in the order of the numbers that its two bits make.
#[derive(Clone, Copy, PartialEq, Eq)]
pub enum Mark {
    Free,
    Recorded,
    Validated,
    Active,
}

impl Mark {
    fn number(self) -> u64
        ensures { result ≡ number_of self }
    {
        self as u64
    }
}

fn bit(w: u64, s: usize) -> u64
    requires { s < 64 }
    ensures { (result ≡ bit w s) × (result < 2) }
{
    (w >> s) % 2
}

fn put(bits: &mut [u64], k: usize, s: usize, v: u64)
    requires { (k < length bits.old) × (s < 64) × (v < 2) }
    ensures { bits.new ≡ put bits.old k s v }
{
    let w = bits[k];
    bits[k] = (w - (bit(w, s) << s)) | (v << s);
}

pub fn state(bits: &[u64], t: usize) -> Mark
    requires { t / 64 * 2 + 1 < length bits.now }
    ensures { number_of result ≡ state_at bits.now t }
{
    let k = t / 64 * 2;
    let s = t % 64;
    // By number: the scratch holds two bits for each place, and no enum.
    match bit(bits[k], s) + 2 * bit(bits[k + 1], s) {
        0 => Mark::Free,
        1 => Mark::Recorded,
        2 => Mark::Validated,
        _ => Mark::Active,
    }
}

pub fn set_state(bits: &mut [u64], t: usize, state: Mark)
    requires { t / 64 * 2 + 1 < length bits.old }
    ensures { bits.new ≡ set_state bits.old t (number_of state) }
{
    let k = t / 64 * 2;
    let s = t % 64;
    let n = state.number();
    put(bits, k, s, n % 2);
    put(bits, k + 1, s, n / 2);
}

// The next place that may be marked: those between are not. It is in the same word, or begins the next.
#[tactic(auto, unfolding(crate::specs::Marks::next_marked))]
pub fn next_marked(bits: &[u64], t: usize) -> usize
    requires { (t / 64 * 2 < length bits.now) × (t < 2 ^ 60) }
    ensures { result ≡ next_marked bits.now t }
{
    let s = t % 64;
    let rest = (bits[t / 64 * 2] >> s) / 2;
    let zeros = rest.trailing_zeros() as usize;
    t + 1 + zeros.min(63 - s)
}

// The first n words are 0, the others as they were.
pub fn clear(bits: &mut [u64], n: usize)
    requires { n ≤ length bits.old }
    ensures { bits.new ≡ replicate n 0 ++ drop n bits.old }
{
    bits[..n].fill(0);
}

// How many places are marked in the first n pairs of words.
pub fn count(bits: &[u64], n: usize) -> u64
    requires { (n * 2 ≤ length bits.now) × (n ≤ 67108864) }
    ensures { result ≡ size_of (marked bits.now) (n * 64) }
{
    let mut c = 0;
    for i in 0..n {
        c += bits[i * 2].count_ones() as u64;
    }
    c
}
