// Where texts and bytes lie in an image, in numbers: for callers to whom no part of the image can be handed.
#![tactic(auto)]

ghost use Rattle.std.specs.Prelude.{◌≡◌, option_map};
ghost use Rattle.about.specs.About.{text_of};
ghost use Rattle.maxminddb.specs.Entries.{part_found, part_of};
ghost use Rattle.spans.specs.Spans.{span_of};

use about::Wanted;
use handle::Handle;
use path::Cursor;
use section::section_at;

// A part of the image, counted from its first byte.
#[repr(C)]
#[derive(Clone, Copy)]
pub struct Span {
    pub place: u64,
    pub length: u64,
}

// A text of the metadata: no bytes at the image's start where it does not open or has no such text.
pub fn metadata_text(image: &[u8], wanted: Wanted, index: usize) -> Span
    ensures { result ≡ span_of (text_of image.now wanted index) }
{
    let p = about::place(image, wanted, index);
    Span {
        place: p.from as u64,
        length: p.size as u64,
    }
}

// None where reading refuses or gives another kind.
#[tactic(auto, using(maxminddb::proofs::EntryLaws::found_barred, crate::proofs::SpanLaws::part_from_image, crate::proofs::SpanLaws::part_inside))]
fn found(image: &[u8], h: Handle, c: Cursor, bytes: bool) -> Option<Span>
    ensures { result ≡ option_map span_of (part_found image.now h c bytes) }
{
    let s = section_at(image, h, c.place).ok()?;
    let (from, size) = value::place(s, c.place, c.charge, bytes)?;
    Some(Span {
        place: h.base + from as u64,
        length: size as u64,
    })
}

// The bytes of a text, or of a value of bytes: no bytes at the image's start where there are none.
#[tactic(auto, using(maxminddb::proofs::EntryLaws::part_of_found))]
pub fn part(image: &[u8], h: Handle, c: Cursor, bytes: bool) -> Span
    ensures { result ≡ span_of (part_of image.now h c bytes) }
{
    found(image, h, c, bytes).unwrap_or(Span {
        place: 0,
        length: 0,
    })
}
