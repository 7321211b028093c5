// The texts of an image's metadata, as parts of the image.
#![tactic(auto)]

ghost use Rattle.std.specs.Prelude.{◌≡◌, ◌+◌, ◌≤◌, length, Some};
ghost use Rattle.handle.specs.Handle.{image_bound};
ghost use Rattle.about.specs.About.{spanned, wanted_of, in_image, text_of, part_of};

use entries::{description, language};
use metadata::{Metadata, Part};
use number::room;
use opening::open;

// Which text of the metadata is asked for. A description has a language and a text.
#[derive(Clone, Copy)]
pub enum Wanted {
    DatabaseType,
    Language,
    DescriptionLanguage,
    Description,
}

// A text that an image does not have: no bytes at its start.
const NOWHERE: Part = Part { from: 0, size: 0 };

fn span(s: &[u8], m: Metadata, wanted: Wanted, index: usize) -> Option<Part>
    ensures { result ≡ wanted_of s.now m wanted index }
{
    match wanted {
        Wanted::DatabaseType => Some(m.database),
        Wanted::Language => language(s, m, index),
        Wanted::DescriptionLanguage => description(s, m, index).language,
        Wanted::Description => description(s, m, index).text,
    }
}

// A part of the metadata section, which starts at `start` and has `n` bytes, seen from the image.
fn seen(start: usize, n: usize, part: Part) -> Part
    requires { start + n ≤ image_bound }
    ensures value { result ≡ part_of (in_image start n (Some part)) }
    ensures size_bound { result.from + result.size ≤ start + n }
{
    if room(part.from, part.size, n) {
        Part {
            from: start + part.from,
            size: part.size,
        }
    } else {
        Part {
            from: start,
            size: 0,
        }
    }
}

// Where a text of the metadata lies in the image: no bytes at its start where it does not open or has no such text.
pub fn place(image: &[u8], wanted: Wanted, index: usize) -> Part
    ensures value { result ≡ part_of (text_of image.now wanted index) }
    ensures size_in_bounds { result.from + result.size ≤ length image.now }
{
    let Ok(reader) = open(image) else {
        return NOWHERE;
    };
    let start = reader.handle.meta as usize;
    let s = &image[start..];
    match span(s, reader.metadata, wanted, index) {
        Some(part) => seen(start, s.len(), part),
        None => NOWHERE,
    }
}

pub fn text<'a>(image: &'a [u8], wanted: Wanted, index: usize) -> &'a [u8]
    ensures result_value { result.now ≡ spanned image.now (text_of image.now wanted index) }
    ensures ref_ptr_value { result.ref_ptr ≡ (image.entry.ref_ptr.0, image.entry.ref_ptr.1 + (text_of image.now wanted index).0) }
{
    let part = place(image, wanted, index);
    &image[part.from..part.from + part.size]
}
