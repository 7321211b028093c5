// The public entry points. Each refuses as docs/SCOPE.md says, in its order, and calls one layer; none asks anything of its caller.
// Image, handle and cursor stay parameters of their own: C hands each of them in by itself, and the README names these functions.
#![tactic(auto)]

ghost use Rattle.std.specs.Prelude.{◌≡◌, true, false, ◌+◌};
ghost use Rattle.opening.specs.Opening.{open_of, age_of};
ghost use Rattle.about.specs.About.{text_of};
ghost use Rattle.about.specs.declared.Wanted.TheVariants as wanted;
ghost use Rattle.value.specs.Parts.{spanned, parts};
ghost use Rattle.verify.specs.Verify.{out, scratch_words_of, verify_of};
ghost use Rattle.walk.specs.Starts.{begin_of};
ghost use Rattle.walk.specs.Calls.{next_of};
ghost use Rattle.maxminddb.specs.Entries.{lookup_of, read_of, part_found, part_of, key_of, index_of};

use about::Wanted;
use handle::{Handle, fits};
use lookup::{Address, find, way_of};
use opening::Reader;
use path::Cursor;
use place::Options;
use refusal::Refusal;
use section::section_at;
use tree::Found;
use value::Value;
use walk::{Called, Range, Started, Walk};

// The numbers that the other entries take, with the metadata's own; its languages and descriptions are counted there.
pub fn open(image: &[u8]) -> Result<Reader, Refusal>
    ensures { result ≡ open_of image.now }
{
    opening::open(image)
}

// Seconds from the image's build to a time, both counted from 1970: below zero where the build is later.
pub fn age(image: &[u8], time: u64) -> Result<i64, Refusal>
    ensures { result ≡ age_of image.now time }
{
    opening::age(image, time)
}

// The texts of the metadata, as parts of the image: its first 0 bytes where it does not open or the index is past the last.
pub fn database_type<'a>(image: &'a [u8]) -> &'a [u8]
    ensures result_value { result.now ≡ spanned image.now (text_of image.now wanted.DatabaseType 0) }
    ensures ref_ptr_value { result.ref_ptr ≡ (image.entry.ref_ptr.0, image.entry.ref_ptr.1 + (text_of image.now wanted.DatabaseType 0).0) }
{
    about::text(image, Wanted::DatabaseType, 0)
}

pub fn language<'a>(image: &'a [u8], index: usize) -> &'a [u8]
    ensures result_value { result.now ≡ spanned image.now (text_of image.now wanted.Language index) }
    ensures ref_ptr_value { result.ref_ptr ≡ (image.entry.ref_ptr.0, image.entry.ref_ptr.1 + (text_of image.now wanted.Language index).0) }
{
    about::text(image, Wanted::Language, index)
}

pub fn description_language<'a>(image: &'a [u8], index: usize) -> &'a [u8]
    ensures result_value { result.now ≡ spanned image.now (text_of image.now wanted.DescriptionLanguage index) }
    ensures ref_ptr_value { result.ref_ptr ≡ (image.entry.ref_ptr.0, image.entry.ref_ptr.1 + (text_of image.now wanted.DescriptionLanguage index).0) }
{
    about::text(image, Wanted::DescriptionLanguage, index)
}

pub fn description<'a>(image: &'a [u8], index: usize) -> &'a [u8]
    ensures result_value { result.now ≡ spanned image.now (text_of image.now wanted.Description index) }
    ensures ref_ptr_value { result.ref_ptr ≡ (image.entry.ref_ptr.0, image.entry.ref_ptr.1 + (text_of image.now wanted.Description index).0) }
{
    about::text(image, Wanted::Description, index)
}

// The network of an address: its data's offset, if it has data, and its length, counted in the tree.
#[tactic(auto, using(crate::proofs::EntryLaws::way_fits), unfolding(crate::specs::Entries::lookup_of))]
pub fn lookup(image: &[u8], h: Handle, address: Address) -> Result<Found, Refusal>
    ensures { result ≡ lookup_of image.now h address }
{
    if !fits(h, image.len() as u64) {
        return Err(Refusal::Handle);
    }
    let way = way_of(h, address)?;
    find(image, h, way)
}

// The value that a cursor leads to.
#[tactic(auto, unfolding(crate::specs::Entries::read_of))]
pub fn read(image: &[u8], h: Handle, c: Cursor) -> Result<Value, Refusal>
    ensures { result ≡ read_of image.now h c }
{
    value::read(section_at(image, h, c.place)?, c.place, c.charge)
}

// A text's bytes, or a value of bytes, as a part of the image: none where `read` refuses or gives another kind.
#[tactic(auto, using(crate::proofs::EntryLaws::lent_part, crate::proofs::EntryLaws::found_barred))]
fn found<'a>(image: &'a [u8], h: Handle, c: Cursor, bytes: bool) -> Option<&'a [u8]>
    ensures { result ≡ parts image.entry (part_found image.now h c bytes) }
{
    value::found(
        section_at(image, h, c.place).ok()?,
        c.place,
        c.charge,
        bytes,
    )
}

// These bytes, or the image's first 0.
fn part<'a>(image: &'a [u8], h: Handle, c: Cursor, bytes: bool) -> &'a [u8]
    ensures result_value { result.now ≡ spanned image.now (part_of image.now h c bytes) }
    ensures ref_ptr_value { result.ref_ptr ≡ (image.entry.ref_ptr.0, image.entry.ref_ptr.1 + (part_of image.now h c bytes).0) }
{
    found(image, h, c, bytes).unwrap_or(&image[..0])
}

pub fn text<'a>(image: &'a [u8], h: Handle, c: Cursor) -> &'a [u8]
    ensures result_value { result.now ≡ spanned image.now (part_of image.now h c false) }
    ensures ref_ptr_value { result.ref_ptr ≡ (image.entry.ref_ptr.0, image.entry.ref_ptr.1 + (part_of image.now h c false).0) }
{
    part(image, h, c, false)
}

pub fn bytes<'a>(image: &'a [u8], h: Handle, c: Cursor) -> &'a [u8]
    ensures result_value { result.now ≡ spanned image.now (part_of image.now h c true) }
    ensures ref_ptr_value { result.ref_ptr ≡ (image.entry.ref_ptr.0, image.entry.ref_ptr.1 + (part_of image.now h c true).0) }
{
    part(image, h, c, true)
}

// Into a map, to the value of a key: none where no key is equal.
#[tactic(auto, unfolding(crate::specs::Entries::key_of))]
pub fn step_key(image: &[u8], h: Handle, c: Cursor, key: &[u8]) -> Result<Option<Cursor>, Refusal>
    ensures { result ≡ key_of image.now h c key.now }
{
    path::step_key(section_at(image, h, c.place)?, c, key)
}

#[tactic(auto, unfolding(crate::specs::Entries::index_of))]
fn step(
    image: &[u8],
    h: Handle,
    c: Cursor,
    index: usize,
    backward: bool,
) -> Result<Option<Cursor>, Refusal>
    ensures { result ≡ index_of image.now h c index backward }
{
    path::step_index(section_at(image, h, c.place)?, c, index, backward)
}

// Into an array, to an element counted from the start: none past the last.
pub fn step_index(
    image: &[u8],
    h: Handle,
    c: Cursor,
    index: usize,
) -> Result<Option<Cursor>, Refusal>
    ensures { result ≡ index_of image.now h c index false }
{
    step(image, h, c, index, false)
}

// Into an array, to an element counted from the end: 0 is the last.
pub fn step_from_end(
    image: &[u8],
    h: Handle,
    c: Cursor,
    index: usize,
) -> Result<Option<Cursor>, Refusal>
    ensures { result ≡ index_of image.now h c index true }
{
    step(image, h, c, index, true)
}

// A walk over the networks of a range. A refused start's walk has no place waiting.
pub fn within(image: &[u8], h: Handle, range: Range, options: Options) -> Started
    ensures { result ≡ begin_of image.now h range options }
{
    walk::start::begin(image, h, range, options)
}

// The next network of a walk, after at most `budget` places, and the walk from there.
pub fn next(image: &[u8], h: Handle, w: Walk, budget: u64) -> Called
    ensures { result ≡ next_of image.now h w budget }
{
    walk::call::next(image, h, w, budget)
}

// How many words of scratch verification needs.
pub fn scratch_words(image: &[u8]) -> Result<u64, Refusal>
    ensures { result ≡ scratch_words_of image.now }
{
    verify::scratch_words(image)
}

// Whether the whole image is sound, after at most `budget` places of its tree; and how many distinct offsets its networks have.
pub fn verify(image: &[u8], scratch: &mut [u64], budget: u64) -> Result<u64, Refusal>
    ensures { out result scratch.new ≡ verify_of image.now scratch.old budget }
{
    verify::verify(image, scratch, budget)
}
