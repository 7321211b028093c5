// What is written of the counts.
use crate::table::{Kind, Question};
use recorded::tally::Tally;
use refusal::Refusal;
use std::io;

// The refusals of a start.
const REFUSALS: [Refusal; 2] = [Refusal::Ipv6InIpv4, Refusal::PrefixLength];

pub fn print_tally(rt: &impl Print, tally: &Tally) -> io::Result<()> {
    println!(rt; "all addresses: {}", tally.question(Question::Whole))?;
    println!(rt; "IPv4 ranges: {}", tally.question(Question::Ipv4))?;
    println!(rt; "IPv6 ranges: {}", tally.question(Question::Ipv6))?;
    let lines = tally.kind(Kind::Lines);
    let sums = tally.kind(Kind::Sums);
    let refused = tally.refused(&REFUSALS);
    println!(rt; "walks line by line {lines}, by sums {sums}, {refused}")?;
    println!(rt; "{tally}")
}
