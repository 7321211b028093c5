// The value graph of a section, as verification walks it. The scratch has the state of each place.
#![tactic(auto)]

ghost use Rattle.std.specs.Prelude.{◌≡◌, ◌+◌, ◌≤◌, length};
ghost use Rattle.stored.specs.Stored.{Lies};
ghost use Rattle.graph.specs.Visit.{text_of, by_kind, visit_at};
ghost use Rattle.graph.specs.Graph.{res, target_at, skip_at, verify_at};
ghost use Rattle.graph.specs.Words.{on_words, needed};

use control::{Kind, decode_pointer};
use marks::{Mark, set_state, state};
use stored::{Layout, stored};
use text::utf8;

// As many levels as may be gone down.
const MAXIMUM_SKIPPED_DATA_STRUCTURE_DEPTH: usize = 128;

// What one value asks for once it is charged; `work` is what is left. A leaf has the fields of `Skipped` itself, as the others have
// theirs: with the struct inside, each arm would name both.
#[derive(Clone, Copy)]
pub enum Visit {
    Leaf {
        next: usize,
        work: usize,
    },
    Children {
        count: usize,
        first: usize,
        work: usize,
    },
    Pointer {
        target: usize,
        next: usize,
        work: usize,
    },
}

// Where a value ends, and the work that is left.
#[derive(Clone, Copy)]
pub struct Skipped {
    pub next: usize,
    pub work: usize,
}

fn visit_text(s: &[u8], text: Layout, work: usize) -> Option<Visit>
    requires { text.payload + text.size ≤ length s.now }
    ensures { result ≡ text_of s.now text.size text.payload text.next work }
{
    let left = work.checked_sub(text.size)?;
    if !utf8(&s[text.payload..text.payload + text.size]) {
        return None;
    }
    Some(Visit::Leaf {
        next: text.next,
        work: left,
    })
}

#[tactic(auto, unfolding(crate::specs::Visit::by_kind))]
fn visit_kind(s: &[u8], value: Layout, work: usize) -> Option<Visit>
    requires { Lies (length s.now) value.kind value.size value.payload }
    ensures { result ≡ by_kind s.now value.kind value.size value.payload value.next work }
{
    let next = value.next;
    match value.kind {
        Kind::Text => visit_text(s, value, work),
        Kind::Pointer => {
            let link = decode_pointer(s, value.size, value.payload)?;
            Some(Visit::Pointer {
                target: link.target,
                next: link.next,
                work,
            })
        }
        Kind::Map => Some(Visit::Children {
            count: value.size * 2,
            first: next,
            work,
        }),
        Kind::Array => Some(Visit::Children {
            count: value.size,
            first: next,
            work,
        }),
        _ => Some(Visit::Leaf { next, work }),
    }
}

// One value by itself, charged: what is inside it or behind it is not looked at.
#[tactic(auto, unfolding(crate::specs::Visit::visit_at))]
fn visit_value(s: &[u8], at: usize, work: usize) -> Option<Visit>
    ensures { result ≡ visit_at s.now at work }
{
    let value = stored(s, at)?;
    visit_kind(s, value, work.checked_sub(1)?)
}

// The value that a pointer, or the tree, leads to: once.
// The section and the words stay two parameters: the words are lent on by their owner, and each contract speaks of them alone.
#[cycle(verification)]
fn verify_pointer_target(
    s: &[u8],
    bits: &mut [u64],
    target: usize,
    levels: usize,
    work: usize,
) -> Option<Skipped>
    requires { needed (length s.now) ≤ length bits.old }
    ensures { res result bits.new ≡ target_at on_words (skip_at on_words levels s.now) (length s.now) target work bits.old }
{
    if s.len() <= target {
        return None;
    }
    match state(bits, target) {
        Mark::Validated => Some(Skipped { next: target, work }),
        Mark::Active => None, // a cycle
        Mark::Free | Mark::Recorded => {
            set_state(bits, target, Mark::Active);
            let past = skip_value_with_verification(s, bits, target, levels, work)?;
            set_state(bits, target, Mark::Validated);
            Some(past)
        }
    }
}

// One value, with those inside it and those that it leads to.
#[cycle(verification)]
fn skip_value_with_verification(
    s: &[u8],
    bits: &mut [u64],
    at: usize,
    levels: usize,
    work: usize,
) -> Option<Skipped>
    requires { needed (length s.now) ≤ length bits.old }
    ensures { res result bits.new ≡ skip_at on_words levels s.now at work bits.old }
{
    match visit_value(s, at, work)? {
        Visit::Leaf { next, work: left } => Some(Skipped { next, work: left }),
        Visit::Pointer {
            target,
            next,
            work: left,
        } => {
            let behind = verify_pointer_target(s, bits, target, levels.checked_sub(1)?, left)?;
            Some(Skipped {
                next,
                work: behind.work,
            })
        }
        Visit::Children {
            count,
            first,
            work: left,
        } => {
            let inside = levels.checked_sub(1)?;
            let mut past = Skipped {
                next: first,
                work: left,
            };
            for _ in 0..count {
                past = skip_value_with_verification(s, bits, past.next, inside, past.work)?;
            }
            Some(past)
        }
    }
}

// The value at a place that the tree recorded, or the first of the metadata.
pub fn skip_value_for_verification(
    s: &[u8],
    bits: &mut [u64],
    at: usize,
    work: usize,
) -> Option<Skipped>
    requires { needed (length s.now) ≤ length bits.old }
    ensures { res result bits.new ≡ verify_at on_words s.now at work bits.old }
{
    verify_pointer_target(s, bits, at, MAXIMUM_SKIPPED_DATA_STRUCTURE_DEPTH, work)
}
