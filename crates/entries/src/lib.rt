// The languages and the descriptions of the metadata, by index.
#![tactic(auto)]

ghost use Rattle.std.specs.Prelude.{◌≡◌, ◌+◌, ◌<◌};
ghost use Rattle.entries.specs.Entries.{last_of, language_of, description_of};

use charge::Charge;
use fields::texts;
use metadata::{Metadata, Part};

// The language of a description, and its text: where they lie in the section, if they are there.
#[derive(Clone, Copy)]
pub struct Described {
    pub language: Option<Part>,
    pub text: Option<Part>,
}

// In two runs, because twice an index might not fit a number.
#[tactic(auto, using(crate::proofs::EntryLaws::last_none, crate::proofs::EntryLaws::last_then))]
fn last_text(s: &[u8], from: usize, passed: usize, more: usize) -> Option<Part>
    requires { 0 < more }
    ensures { result ≡ last_of s.now from (passed + more) }
{
    let before = texts(s, passed, from, Charge::default())?;
    let last = texts(s, more, before.next, before.charge)?;
    Some(Part {
        from: last.place,
        size: last.value as usize,
    })
}

// The language at an index. The metadata may be forged: then it may be absent, or another text.
#[tactic(auto, unfolding(crate::specs::Entries::language_of))]
pub fn language(s: &[u8], m: Metadata, index: usize) -> Option<Part>
    ensures { result ≡ language_of s.now m index }
{
    if index < m.languages.size {
        last_text(s, m.languages.from, index, 1)
    } else {
        None
    }
}

// The description at an index, with its language.
pub fn description(s: &[u8], m: Metadata, index: usize) -> Described
    ensures { result ≡ description_of s.now m index }
{
    let from = m.description.from;
    if index < m.description.size {
        Described {
            language: last_text(s, from, index, index + 1),
            text: last_text(s, from, index + 1, index + 1),
        }
    } else {
        Described {
            language: None,
            text: None,
        }
    }
}
