// Replays the recorded table: asks our entry points what the crate was asked, and says how many answers are equal.
#![tactic(auto)]

mod answer;
mod line;
mod report;
mod table;
mod trace;

use answer::is_equal;
use recorded::tally::Row;
use recorded::{Entry, read_full, replay, zeros};
use report::print_tally;
use std::io;

fn row(image: &[u8], entry: &Entry<'_>) -> Row {
    Row::new(entry, is_equal(image, entry))
}

fn main(rt: HostRuntime) -> io::Result<()> {
    let mut room = zeros();
    let n = read_full(&mut rt.stdin(), &mut room)?;
    let tally = replay(&rt, &room[..n], 0, |_| 0, row)?;
    print_tally(&rt, &tally)
}
