// The scratch that is lent: full of ones and noughts before a call, and what has to stand in it afterwards.
ghost use Rattle.std.specs.Prelude.{◌≡◌, length};

// As many words as the largest recorded image needs, and more.
pub const ROOM: usize = 4096;

pub fn words() -> [u64; 4096]
    ensures { 4096 ≡ length result }
{
    [0; 4096]
}

// What a word holds before a call. The words after the first hold one less each, so that most of their bits are set.
fn full(at: usize) -> u64 {
    u64::MAX.wrapping_sub(at as u64)
}

pub fn fill(scratch: &mut [u64]) {
    for (at, word) in scratch.iter_mut().enumerate() {
        *word = full(at);
    }
}

// What a word holds after a call: nothing below so many words, and from there on what it held before.
fn held(at: usize, cleared: usize) -> u64 {
    if at < cleared { 0 } else { full(at) }
}

// Whether each word is what it has to be after a call. All are looked at, with no early end, which the compiler makes into a
// test of many words at once: by `all` the whole program took a third longer.
pub fn is_left(scratch: &[u64], cleared: usize) -> bool {
    scratch.iter().enumerate().fold(
        true,
        |is_left, (at, word)| is_left & (*word == held(at, cleared)),
    )
}
