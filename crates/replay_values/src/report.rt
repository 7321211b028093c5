// What is written of the counts.
use crate::table::{Kind, Question};
use recorded::tally::Tally;
use std::io;

// Readings that come after steps are counted apart from the others, where sections, which are no question, have their number.
pub const AFTER_STEPS: u8 = 0;

fn print_kinds(rt: &impl Print, tally: &Tally) -> io::Result<()> {
    print!(rt;
        "answers: text {}, bytes {}, double {}, float {}, u16 {}, u32 {}, u64 {}, u128 {}",
        tally.kind(Kind::Text),
        tally.kind(Kind::Bytes),
        tally.kind(Kind::Double),
        tally.kind(Kind::Float),
        tally.kind(Kind::U16),
        tally.kind(Kind::U32),
        tally.kind(Kind::U64),
        tally.kind(Kind::U128)
    )?;
    print!(rt;
        ", i32 {}, boolean {}, map {}, array {}",
        tally.kind(Kind::I32),
        tally.kind(Kind::Boolean),
        tally.kind(Kind::Map),
        tally.kind(Kind::Array)
    )?;
    println!(rt;
        ", past {}, empty {}, not empty {}, absent {}, refused {}",
        tally.kind(Kind::Past),
        tally.kind(Kind::Empty),
        tally.kind(Kind::Holds),
        tally.kind(Kind::Absent),
        tally.kind(Kind::Refused)
    )
}

pub fn print_tally(rt: &impl Print, tally: &Tally) -> io::Result<()> {
    println!(rt; "reading: {}", tally.question(Question::Reading))?;
    println!(rt; "reading after steps: {}", tally.question(AFTER_STEPS))?;
    println!(rt; "skipping: {}", tally.question(Question::Skipping))?;
    println!(rt; "empty check: {}", tally.question(Question::EmptyCheck))?;
    print_kinds(rt, tally)?;
    println!(rt; "{tally}")
}
