// Replays the recorded table: asks our functions what the crate was asked, and says how many answers are equal.
#![tactic(auto)]

mod answer;
mod report;
mod steps;
mod table;

use answer::is_equal;
use recorded::tally::Row;
use recorded::{Entry, read_full, replay, zeros};
use report::{AFTER_STEPS, print_tally};
use std::io;

// Zeros before the table, over which its first section reaches back: a pointer of class 2 leads no nearer than this.
const LEAD: usize = 526336;

fn row(section: &[u8], entry: &Entry<'_>) -> Row {
    let question = if entry.asked.is_empty() {
        entry.question
    } else {
        AFTER_STEPS
    };
    Row {
        question,
        kind: usize::from(entry.answer.kind),
        is_equal: is_equal(section, entry),
    }
}

fn main(rt: HostRuntime) -> io::Result<()> {
    let mut room = zeros();
    let n = read_full(&mut rt.stdin(), &mut room[LEAD..])?;
    let table = &room[..LEAD + n];
    let tally = replay(&rt, table, LEAD, |section| section.place, row)?;
    print_tally(&rt, &tally)
}
