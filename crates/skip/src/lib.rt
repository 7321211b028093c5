// Passing over a value.
#![tactic(auto)]

ghost use Rattle.std.specs.Prelude.{◌≡◌, ◌≤◌};
ghost use Rattle.skip.specs.Skip.{nest_of, entry_of, entry_at, skip_at, skipped_at};

use charge::{Charge, reserve_values};
use control::Kind;
use stored::stored;

// Skipping is reached by data that nobody asked for, so it goes less deep than reading might.
pub const MAXIMUM_SKIPPED_DATA_STRUCTURE_DEPTH: usize = 128;

// A value that is come to: nothing stands inside it, or its children are charged and come next.
#[derive(Clone, Copy)]
pub enum Entry {
    Leaf {
        next: usize,
    },
    Nest {
        first: usize,
        count: usize,
        charge: Charge,
    },
}

// Where what follows a value begins, and what has been charged up to there.
#[derive(Clone, Copy)]
pub struct Past {
    pub next: usize,
    pub charge: Charge,
}

pub fn reserve_container_values(first: usize, count: usize, c: Charge) -> Option<Entry>
    ensures { result ≡ nest_of first count c }
{
    let charge = reserve_values(c, count)?;
    Some(Entry::Nest {
        first,
        count,
        charge,
    })
}

// A map of n pairs has 2 n children.
pub fn enter(kind: Kind, size: usize, next: usize, c: Charge) -> Option<Entry>
    requires { size ≤ 16843036 }
    ensures { result ≡ entry_of kind size next c }
{
    match kind {
        Kind::Map => reserve_container_values(next, size * 2, c),
        Kind::Array => reserve_container_values(next, size, c),
        _ => Some(Entry::Leaf { next }),
    }
}

#[tactic(auto, using(crate::proofs::SkipLaws::stored_small), unfolding(crate::specs::Skip::entry_at))]
fn entry_at(s: &[u8], at: usize, c: Charge) -> Option<Entry>
    ensures { result ≡ entry_at s.now at c }
{
    let l = stored(s, at)?;
    enter(l.kind, l.size, l.next, c)
}

// Each element is one level deeper. A pointer is passed over and not followed: its target is no part of the value.
#[tactic(auto, using(crate::proofs::SkipLaws::skip_wrong, crate::proofs::SkipLaws::skip_leaf, crate::proofs::SkipLaws::skip_deep, crate::proofs::SkipLaws::skip_nest, crate::proofs::SkipLaws::many_past, crate::proofs::SkipLaws::many_stuck, crate::proofs::SkipLaws::many_none))]
fn skip_value_inner(s: &[u8], levels: usize, at: usize, c: Charge) -> Option<Past>
    ensures { result ≡ skip_at s.now levels at c }
{
    match entry_at(s, at, c)? {
        Entry::Leaf { next } => Some(Past { next, charge: c }),
        Entry::Nest {
            first,
            count,
            charge,
        } => {
            if levels == 0 {
                return None;
            }
            let mut past = Past {
                next: first,
                charge,
            };
            for _ in 0..count {
                past = skip_value_inner(s, levels - 1, past.next, past.charge)?;
            }
            Some(past)
        }
    }
}

pub fn skip_value(s: &[u8], at: usize, c: Charge) -> Option<Past>
    ensures { result ≡ skipped_at s.now at c }
{
    skip_value_inner(s, MAXIMUM_SKIPPED_DATA_STRUCTURE_DEPTH, at, c)
}
