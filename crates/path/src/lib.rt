// Stepping into a value: into a map by key, into an array by index.
#![tactic(auto)]

ghost use Rattle.std.specs.Prelude.{◌≡◌, Some};
ghost use Rattle.control.specs.Control.{type_number};
ghost use Rattle.skip.specs.Skip.{past, many, skipped_at};
ghost use Rattle.path.specs.Steps.{landed, inside_at, past_value, pair_at, find_from, element_from, key_step, index_step};

use charge::{Charge, count_payload, reserve_values};
use control::Kind;
use key::{is_key, read_str_as_bytes};
use refusal::Refusal;
use skip::{Past, skip_value};
use stored::resolved;

// A place of a section, and what has been charged on the way to it. A fresh one has charged nothing.
#[repr(C)]
#[derive(Clone, Copy)]
pub struct Cursor {
    pub place: usize,
    pub charge: Charge,
}

// A map or array that was entered: where its children begin, and its size.
#[derive(Clone, Copy)]
pub struct Inside {
    pub first: usize,
    pub size: usize,
    pub charge: Charge,
}

// One pair of a map: its key is the one that is looked for, or the next pair begins past its value.
#[derive(Clone, Copy)]
pub enum Pair {
    Here(Cursor),
    Not(Cursor),
}

// Nothing can be read at the section's end: no step leads there.
fn land(s: &[u8], c: Cursor) -> Result<Option<Cursor>, Refusal>
    ensures { result ≡ landed s.now c.place c.charge }
{
    if c.place < s.len() {
        Ok(Some(c))
    } else {
        Err(Refusal::Malformed)
    }
}

// The children, two for each pair of a map, are charged whatever comes of the step, also where the first one is asked for.
#[tactic(auto, using(crate::proofs::PathLaws::entered_small), unfolding(crate::specs::Steps::inside_at))]
fn consume_container_header(s: &[u8], c: Cursor, wanted: Kind) -> Option<Inside>
    ensures { result ≡ inside_at s.now c (type_number wanted) }
{
    let l = resolved(s, c.place)?;
    if l.kind != wanted {
        return None;
    }
    let children = match l.kind {
        Kind::Map => l.size * 2,
        _ => l.size,
    };
    let charge = reserve_values(c.charge, children)?;
    Some(Inside {
        first: l.payload,
        size: l.size,
        charge,
    })
}

fn past_value(s: &[u8], place: usize, charge: Charge) -> Option<Pair>
    ensures { result ≡ past_value (skipped_at s.now place charge) }
{
    let past = skip_value(s, place, charge)?;
    Some(Pair::Not(Cursor {
        place: past.next,
        charge: past.charge,
    }))
}

// Every key that is compared is charged, the equal one too.
#[tactic(auto, using(crate::proofs::PathLaws::name_inside), unfolding(crate::specs::Steps::pair_at))]
fn pair_at(s: &[u8], key: &[u8], c: Cursor) -> Option<Pair>
    ensures { result ≡ pair_at s.now key.now c.place c.charge }
{
    let name = read_str_as_bytes(s, c.place)?;
    let charge = count_payload(c.charge, name.size)?;
    if is_key(s, name.from, name.size, key) {
        Some(Pair::Here(Cursor {
            place: name.next,
            charge,
        }))
    } else {
        past_value(s, name.next, charge)
    }
}

// The first equal key counts.
#[tactic(auto, using(crate::proofs::PathLaws::find_here, crate::proofs::PathLaws::find_not, crate::proofs::PathLaws::find_wrong, crate::proofs::PathLaws::find_none))]
fn find_key(s: &[u8], key: &[u8], inside: Inside) -> Result<Option<Cursor>, Refusal>
    ensures { result ≡ find_from s.now key.now inside.size inside.first inside.charge }
{
    let mut cursor = Cursor {
        place: inside.first,
        charge: inside.charge,
    };
    for _ in 0..inside.size {
        match pair_at(s, key, cursor).ok_or(Refusal::Malformed)? {
            Pair::Here(c) => return land(s, c),
            Pair::Not(c) => cursor = c,
        }
    }
    Ok(None)
}

#[tactic(auto, using(skip::proofs::SkipLaws::many_past, skip::proofs::SkipLaws::many_stuck, skip::proofs::SkipLaws::many_none))]
fn skip_many(s: &[u8], count: usize, first: usize, charge: Charge) -> Option<Past>
    ensures { result ≡ many (skipped_at s.now) count (Some (past first charge)) }
{
    let mut past = Past {
        next: first,
        charge,
    };
    for _ in 0..count {
        past = skip_value(s, past.next, past.charge)?;
    }
    Some(past)
}

fn element(s: &[u8], index: usize, first: usize, charge: Charge) -> Result<Option<Cursor>, Refusal>
    ensures { result ≡ element_from s.now index first charge }
{
    let past = skip_many(s, index, first, charge).ok_or(Refusal::Malformed)?;
    land(
        s,
        Cursor {
            place: past.next,
            charge: past.charge,
        },
    )
}

// A step into a map, to the value of a key of any bytes; none where no key is equal.
#[tactic(auto, unfolding(crate::specs::Steps::key_step))]
pub fn step_key(s: &[u8], c: Cursor, key: &[u8]) -> Result<Option<Cursor>, Refusal>
    ensures { result ≡ key_step s.now c key.now }
{
    let inside = consume_container_header(s, c, Kind::Map).ok_or(Refusal::Malformed)?;
    find_key(s, key, inside)
}

// A step into an array, to an element counted from the start or, 0 the last, from the end; none past the other end.
// The flag is that of `index_of`, which the functions for C promise.
#[tactic(auto, unfolding(crate::specs::Steps::index_step))]
pub fn step_index(
    s: &[u8],
    c: Cursor,
    index: usize,
    backward: bool,
) -> Result<Option<Cursor>, Refusal>
    ensures { result ≡ index_step s.now c index backward }
{
    let inside = consume_container_header(s, c, Kind::Array).ok_or(Refusal::Malformed)?;
    if inside.size <= index {
        return Ok(None);
    }
    if backward {
        element(s, inside.size - 1 - index, inside.first, inside.charge)
    } else {
        element(s, index, inside.first, inside.charge)
    }
}
