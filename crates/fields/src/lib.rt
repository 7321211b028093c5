// The value of one field of the metadata.
#![tactic(auto)]

ghost use Rattle.std.specs.Prelude.{◌≡◌, ◌+◌, ◌≤◌, length};
ghost use Rattle.stored.specs.Stored.{Lies};
ghost use Rattle.fields.specs.Fields.{text_of, text_at, texts_at, past_at, entries_of, value_of, value_at};

use charge::{Charge, count_payload};
use control::Kind;
use key::{Name, read_str_as_bytes};
use number::be;
use skip::{Entry, enter};
use stored::{Layout, resolved, stored};
use text::utf8;

// A value that was read: its number, or how many bytes or entries it has; where its payload begins, and what follows it.
#[derive(Clone, Copy)]
pub struct Got {
    pub value: u64,
    pub place: usize,
    pub next: usize,
    pub charge: Charge,
}

fn decode_string(s: &[u8], text: Name, c: Charge) -> Option<Got>
    requires { text.from + text.size ≤ length s.now }
    ensures { result ≡ text_of s.now text.size text.from text.next c }
{
    if !utf8(&s[text.from..text.from + text.size]) {
        return None;
    }
    let charge = count_payload(c, text.size)?;
    Some(Got {
        value: text.size as u64,
        place: text.from,
        next: text.next,
        charge,
    })
}

#[tactic(auto, using(key::proofs::KeyLaws::name_inside), unfolding(crate::specs::Fields::text_at))]
pub fn deserialize_str(s: &[u8], at: usize, c: Charge) -> Option<Got>
    ensures { result ≡ text_at s.now at c }
{
    let text = read_str_as_bytes(s, at)?;
    decode_string(s, text, c)
}

// Texts one after the other: what the last of them gives.
#[tactic(auto, using(crate::proofs::FieldLaws::many_more, crate::proofs::FieldLaws::many_stop, crate::proofs::FieldLaws::many_none))]
pub fn texts(s: &[u8], count: usize, first: usize, c: Charge) -> Option<Got>
    ensures { result ≡ texts_at s.now count first c }
{
    let mut last = Got {
        value: 0,
        place: 0,
        next: first,
        charge: c,
    };
    for _ in 0..count {
        last = deserialize_str(s, last.next, last.charge)?;
    }
    Some(last)
}

// What follows a map or an array: a pointer to it is passed, and not what it leads to.
#[tactic(auto, unfolding(crate::specs::Fields::past_at))]
fn past(s: &[u8], at: usize, end: usize) -> usize
    ensures { result ≡ past_at s.now at end }
{
    match stored(s, at) {
        Some(l) if l.kind == Kind::Pointer => l.next,
        _ => end,
    }
}

// A map of n pairs of texts is read as 2 n texts.
fn entries(s: &[u8], at: usize, l: Layout, c: Charge) -> Option<Got>
    requires { l.size ≤ 16843036 }
    ensures { result ≡ entries_of s.now at l.kind l.size l.payload c }
{
    let Some(
        Entry::Nest {
            first,
            count,
            charge,
        },
    ) = enter(l.kind, l.size, l.payload, c)
    else {
        return None;
    };
    let last = texts(s, count, first, charge)?;
    Some(Got {
        value: l.size as u64,
        place: first,
        next: past(s, at, last.next),
        charge: last.charge,
    })
}

fn value_of(s: &[u8], at: usize, l: Layout, c: Charge) -> Option<Got>
    requires { Lies (length s.now) l.kind l.size l.payload }
    ensures { result ≡ value_of s.now at l.kind l.size l.payload l.next c }
{
    match l.kind {
        Kind::Text => {
            let text = Name {
                from: l.payload,
                size: l.size,
                next: l.next,
            };
            decode_string(s, text, c)
        }
        Kind::U16 | Kind::U32 | Kind::U64 => Some(Got {
            value: be(s, l.payload, l.size),
            place: l.payload,
            next: l.next,
            charge: c,
        }),
        Kind::Map | Kind::Array => entries(s, at, l, c),
        _ => None,
    }
}

// The value at a place, of the kind wanted, behind at most one pointer.
#[tactic(auto, using(crate::proofs::FieldLaws::resolved_lies), unfolding(crate::specs::Fields::value_at))]
pub fn decode_direct(s: &[u8], want: Kind, at: usize, c: Charge) -> Option<Got>
    ensures { result ≡ value_at s.now want at c }
{
    let l = resolved(s, at)?;
    if l.kind != want {
        return None;
    }
    value_of(s, at, l, c)
}
