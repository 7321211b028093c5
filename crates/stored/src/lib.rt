// How a value lies in a section: its kind, its size, its payload, and where the next value begins.
#![tactic(auto)]

ghost use Rattle.std.specs.Prelude.{◌≡◌};
ghost use Rattle.stored.specs.Stored.{body_of, stored_at, resolved_at};

use control::{Head, Kind, decode_pointer, size_and_type};

#[derive(Clone, Copy)]
pub struct Layout {
    pub kind: Kind,
    pub size: usize,
    pub payload: usize,
    pub next: usize,
}

// How many bytes a payload takes, if its kind allows its size.
fn body_of(kind: Kind, size: usize) -> Option<usize>
    ensures { result ≡ body_of kind size }
{
    match kind {
        Kind::Pointer => Some(size / 8 % 4 + 1),
        Kind::Text | Kind::Bytes => Some(size),
        Kind::Double => (size == 8).then_some(size),
        Kind::U16 => (size <= 2).then_some(size),
        Kind::U32 | Kind::I32 => (size <= 4).then_some(size),
        Kind::U64 => (size <= 8).then_some(size),
        Kind::U128 => (size <= 16).then_some(size),
        Kind::Map | Kind::Array => Some(0),
        Kind::Boolean => (size <= 1).then_some(0),
        Kind::Float => (size == 4).then_some(size),
        Kind::Unknown => None,
    }
}

// What lies at a place. A pointer is not followed, a text not looked into.
#[tactic(auto, unfolding(crate::specs::Stored::stored_at, crate::specs::Stored::lying_at))]
pub fn stored(s: &[u8], at: usize) -> Option<Layout>
    ensures { result ≡ stored_at s.now at }
{
    let Head {
        kind,
        size,
        payload,
    } = size_and_type(s, at)?;
    let next = payload.checked_add(body_of(kind, size)?)?;
    // No `then_some`: it copies the layout in pieces, and who reads it waits for them.
    if next <= s.len() {
        Some(Layout {
            kind,
            size,
            payload,
            next,
        })
    } else {
        None
    }
}

// What a place leads to, behind at most one pointer: no pointer again, and what follows begins past the pointer.
#[tactic(auto, unfolding(crate::specs::Stored::resolved_at))]
pub fn resolved(s: &[u8], at: usize) -> Option<Layout>
    ensures { result ≡ resolved_at s.now at }
{
    let value = stored(s, at)?;
    if value.kind != Kind::Pointer {
        return Some(value);
    }
    let link = decode_pointer(s, value.size, value.payload)?;
    let target = stored(s, link.target)?;
    if target.kind == Kind::Pointer {
        return None;
    }
    Some(Layout {
        next: link.next,
        ..target
    })
}
