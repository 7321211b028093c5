// What is written of the counts.
use crate::table::{Kind, Question};
use recorded::tally::Tally;
use refusal::Refusal;
use std::io;

// The refusals of opening, and of a lookup.
const REFUSALS: [Refusal; 10] = [
    Refusal::NoMarker,
    Refusal::Metadata,
    Refusal::FormatVersion,
    Refusal::IpVersion,
    Refusal::NoNodes,
    Refusal::BuildTime,
    Refusal::RecordSize,
    Refusal::TreeTooLong,
    Refusal::Ipv6InIpv4,
    Refusal::Record,
];

fn print_questions(rt: &impl Print, tally: &Tally) -> io::Result<()> {
    println!(rt; "opening: {}", tally.question(Question::Opening))?;
    println!(rt; "database type: {}", tally.question(Question::DatabaseType))?;
    println!(rt; "language: {}", tally.question(Question::Language))?;
    println!(rt; "description: {}", tally.question(Question::Description))?;
    println!(rt; "age: {}", tally.question(Question::Age))?;
    println!(rt; "lookup: {}", tally.question(Question::Lookup))
}

fn print_kinds(rt: &impl Print, tally: &Tally) -> io::Result<()> {
    println!(rt;
        "answers: opened {}, text {}, absent {}, seconds {}, data {}, no data {}",
        tally.kind(Kind::Opened),
        tally.kind(Kind::Text),
        tally.kind(Kind::Absent),
        tally.kind(Kind::Seconds),
        tally.kind(Kind::Data),
        tally.kind(Kind::NoData)
    )?;
    println!(rt; "{}", tally.refused(&REFUSALS))
}

pub fn print_tally(rt: &impl Print, tally: &Tally) -> io::Result<()> {
    print_questions(rt, tally)?;
    print_kinds(rt, tally)?;
    println!(rt; "{tally}")
}
