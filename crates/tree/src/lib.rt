// The search tree: its records, the way down it, and the marker that ends the data section.
#![tactic(auto)]

pub mod lookup;
pub mod marker;
pub mod record;

// Where a way down the tree stops: a record's value, and how many bits led there.
#[derive(Clone, Copy)]
pub struct Place {
    pub node: u64,
    pub depth: u64,
}

// What a way down ends in: the offset of its data, if there is any, and the length of its prefix.
#[derive(Clone, Copy)]
pub struct Found {
    pub offset: Option<u64>,
    pub len: u64,
}
