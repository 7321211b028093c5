// A walk over the networks of a range: its start, and its call with a budget.
#![tactic(auto)]

pub mod call;
pub mod rows;
pub mod start;

use number::Key;
use place::{Options, Outcome, Place};
use refusal::Refusal;

// The waiting places, how many they are, the address width, and the options that the walk was begun with: one value, as
// docs/SCOPE.md has it, so an array with a count, and a width that a forged walk may have wrong (refusal 13).
#[derive(Drop)]
pub struct Walk {
    pub places: [Place; 129],
    pub count: u64,
    pub width: u64,
    pub options: Options,
}

// A range of addresses, with its prefix length.
#[derive(Clone, Copy)]
pub enum Range {
    Ipv4 { addr: u32, len: u64 },
    Ipv6 { addr: Key, len: u64 },
}

// What a range asks, whatever its width.
#[derive(Clone, Copy)]
pub struct Asked {
    pub key: Key,
    pub width: u64,
    pub len: u64,
}

// The place that a walk begins with, and its width.
#[derive(Clone, Copy)]
pub struct First {
    pub place: Place,
    pub width: u64,
}

// How a start went, and the walk: one with no place waiting where it is refused.
#[derive(Drop)]
pub struct Started {
    pub status: Result<(), Refusal>,
    pub walk: Walk,
}

// What a call hands out, how many places it has taken, and the walk afterwards.
#[derive(Drop)]
pub struct Called {
    pub answer: Outcome,
    pub taken: u64,
    pub walk: Walk,
}
