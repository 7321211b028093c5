// What is written of the counts.
use crate::table::{Kind, Question};
use recorded::Entry;
use recorded::tally::Tally;
use refusal::Refusal;
use std::io;

const REFUSALS: [Refusal; 15] = [
    Refusal::NoMarker,
    Refusal::Metadata,
    Refusal::FormatVersion,
    Refusal::IpVersion,
    Refusal::NoNodes,
    Refusal::BuildTime,
    Refusal::RecordSize,
    Refusal::TreeTooLong,
    Refusal::Record,
    Refusal::TooDeep,
    Refusal::Malformed,
    Refusal::NoDatabaseType,
    Refusal::NoDescription,
    Refusal::TooManyNetworks,
    Refusal::Separator,
];

// Accepted verdicts are counted in the first slot, which no refusal has.
const ACCEPTED: u8 = 0;

// The slot of a recorded verdict.
pub fn slot_of(entry: &Entry<'_>) -> usize {
    if entry.answer.kind == u8::from(Kind::Refused) {
        entry.answer.slot()
    } else {
        usize::from(ACCEPTED)
    }
}

pub fn print_tally(rt: &impl Print, tally: &Tally) -> io::Result<()> {
    println!(rt; "metadata: {}", tally.question(Question::Metadata))?;
    println!(rt; "tree: {}", tally.question(Question::Tree))?;
    println!(rt; "data: {}", tally.question(Question::Data))?;
    println!(rt; "random: {}", tally.question(Question::Random))?;
    println!(rt; "accepted {}", tally.kind(ACCEPTED))?;
    println!(rt; "{}", tally.refused(&REFUSALS))?;
    println!(rt; "{tally}")
}
