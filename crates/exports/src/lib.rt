// The functions for C, which `exports_c` exports: include/ermopinaw.h. Each calls one public entry and hands its answer on as
// numbers. What C can write and no entry takes is refused with 13 first, and nothing lent is written.
#![tactic(auto)]

ghost use Rattle.std.specs.Prelude.{◌≡◌, true, false};
ghost use Rattle.opening.specs.Opening.{open_of, age_of};
ghost use Rattle.about.specs.About.{text_of};
ghost use Rattle.about.specs.declared.Wanted.TheVariants as wanted;
ghost use Rattle.maxminddb.specs.Entries.{read_of, part_of, key_of, index_of};
ghost use Rattle.verify.specs.Verify.{scratch_words_of, verify_of};
ghost use Rattle.spans.specs.Spans.{span_of};
ghost use Rattle.answers.specs.Answers.{opened_of, aged_of, valued_of, stepped_of, scratch_of};
ghost use Rattle.exports.specs.Doors.{in_shape, shaped, range_around, lookup_door, begun, within_door, handed, next_door, checked, verify_door, rowed, rows_door};

use about::Wanted;
use answers::{
    ErmAged, ErmCalled, ErmFound, ErmOpened, ErmScratch, ErmStepped, ErmValue, ErmVerified, halted,
    status,
};
use handle::Handle;
use lookup::Address;
use number::Key;
use path::Cursor;
use place::Outcome;
use refusal::Refusal;
use spans::Span;
use walk::Range;
use walk::rows::next_rows;
use words::{WALK_WORDS, holds, load, options_of, store};

// The answer of many rows.
#[repr(C)]
#[derive(Clone, Copy)]
pub struct ErmFilled {
    pub status: u64,
    pub rows: u64,
    pub taken: u64,
}

// Whether a width and two halves are an address.
fn in_shape(width: u64, high: u64, low: u64) -> bool
    ensures { result ≡ in_shape width high low }
{
    if width == 32 {
        high == 0 && low <= 4294967295
    } else {
        width == 128
    }
}

fn address_of(width: u64, high: u64, low: u64) -> Result<Address, Refusal>
    ensures { result ≡ shaped width high low }
{
    if !in_shape(width, high, low) {
        return Err(Refusal::OutOfShape);
    }
    if width == 32 {
        Ok(Address::V4(low as u32))
    } else {
        Ok(Address::V6(high, low))
    }
}

// The addresses that share their first `len` bits with one.
fn range_around(address: Address, len: u64) -> Range
    ensures { result ≡ range_around address len }
{
    match address {
        Address::V4(addr) => Range::Ipv4 { addr, len },
        Address::V6(high, low) => Range::Ipv6 {
            addr: Key { high, low },
            len,
        },
    }
}

pub fn erm_open(image: &[u8]) -> ErmOpened
    ensures { result ≡ opened_of (open_of image.now) }
{
    ErmOpened::from(maxminddb::open(image))
}

pub fn erm_age(image: &[u8], time: u64) -> ErmAged
    ensures { result ≡ aged_of (age_of image.now time) }
{
    ErmAged::from(maxminddb::age(image, time))
}

pub fn erm_database_type(image: &[u8]) -> Span
    ensures { result ≡ span_of (text_of image.now wanted.DatabaseType 0) }
{
    spans::metadata_text(image, Wanted::DatabaseType, 0)
}

pub fn erm_language(image: &[u8], index: usize) -> Span
    ensures { result ≡ span_of (text_of image.now wanted.Language index) }
{
    spans::metadata_text(image, Wanted::Language, index)
}

pub fn erm_description_language(image: &[u8], index: usize) -> Span
    ensures { result ≡ span_of (text_of image.now wanted.DescriptionLanguage index) }
{
    spans::metadata_text(image, Wanted::DescriptionLanguage, index)
}

pub fn erm_description(image: &[u8], index: usize) -> Span
    ensures { result ≡ span_of (text_of image.now wanted.Description index) }
{
    spans::metadata_text(image, Wanted::Description, index)
}

#[tactic(auto, unfolding(crate::specs::Doors::lookup_door))]
pub fn erm_lookup(image: &[u8], handle: Handle, width: u64, high: u64, low: u64) -> ErmFound
    ensures { result ≡ lookup_door image.now handle width high low }
{
    let address = address_of(width, high, low);
    ErmFound::from(address.and_then(|address| maxminddb::lookup(image, handle, address)))
}

pub fn erm_read(image: &[u8], handle: Handle, cursor: Cursor) -> ErmValue
    ensures { result ≡ valued_of (read_of image.now handle cursor) }
{
    ErmValue::from(maxminddb::read(image, handle, cursor))
}

pub fn erm_text(image: &[u8], handle: Handle, cursor: Cursor) -> Span
    ensures { result ≡ span_of (part_of image.now handle cursor false) }
{
    spans::part(image, handle, cursor, false)
}

pub fn erm_bytes(image: &[u8], handle: Handle, cursor: Cursor) -> Span
    ensures { result ≡ span_of (part_of image.now handle cursor true) }
{
    spans::part(image, handle, cursor, true)
}

pub fn erm_step_key(image: &[u8], handle: Handle, cursor: Cursor, key: &[u8]) -> ErmStepped
    ensures { result ≡ stepped_of (key_of image.now handle cursor key.now) }
{
    ErmStepped::from(maxminddb::step_key(image, handle, cursor, key))
}

pub fn erm_step_index(image: &[u8], handle: Handle, cursor: Cursor, index: usize) -> ErmStepped
    ensures { result ≡ stepped_of (index_of image.now handle cursor index false) }
{
    ErmStepped::from(maxminddb::step_index(image, handle, cursor, index))
}

pub fn erm_step_from_end(image: &[u8], handle: Handle, cursor: Cursor, index: usize) -> ErmStepped
    ensures { result ≡ stepped_of (index_of image.now handle cursor index true) }
{
    ErmStepped::from(maxminddb::step_from_end(image, handle, cursor, index))
}

#[tactic(auto, unfolding(crate::specs::Doors::within_door))]
pub fn erm_within(
    image: &[u8],
    handle: Handle,
    width: u64,
    high: u64,
    low: u64,
    length: u64,
    options: u64,
    walk: &mut [u64],
) -> u64
    ensures { begun result walk.new ≡ within_door image.now handle width high low length options walk.old }
{
    if walk.len() < WALK_WORDS {
        return status(Err(Refusal::OutOfShape));
    }
    if 7 < options {
        return status(Err(Refusal::OutOfShape));
    }
    let address = match address_of(width, high, low) {
        Ok(address) => address,
        Err(refusal) => return status(Err(refusal)),
    };
    let range = range_around(address, length);
    let started = maxminddb::within(image, handle, range, options_of(options));
    store(walk, started.walk);
    status(started.status)
}

#[tactic(auto, unfolding(crate::specs::Doors::next_door), using(words::proofs::WordLaws::enough))]
pub fn erm_next(image: &[u8], handle: Handle, walk: &mut [u64], budget: u64) -> ErmCalled
    ensures { handed result walk.new ≡ next_door image.now handle walk.old budget }
{
    if !holds(walk) {
        return ErmCalled::from((Outcome::Refused(Refusal::OutOfShape), 0));
    }
    let c = maxminddb::next(image, handle, load(walk), budget);
    store(walk, c.walk);
    ErmCalled::from((c.answer, c.taken))
}

#[tactic(auto, unfolding(crate::specs::Doors::rows_door), using(words::proofs::WordLaws::enough))]
pub fn erm_rows(
    image: &[u8],
    handle: Handle,
    walk: &mut [u64],
    out: &mut [u64],
    budget: u64,
) -> ErmFilled
    ensures { rowed result walk.new out.new ≡ rows_door image.now handle walk.old out.old budget }
{
    if !holds(walk) {
        return ErmFilled {
            status: status(Err(Refusal::OutOfShape)),
            rows: 0,
            taken: 0,
        };
    }
    let f = next_rows(image, handle, load(walk), out, budget);
    // Field by field, and by no `From`: the walk of the answer, 4 KB, is put into its words first.
    store(walk, f.walk);
    ErmFilled {
        status: halted(f.halt),
        rows: f.rows,
        taken: f.taken,
    }
}

pub fn erm_scratch_words(image: &[u8]) -> ErmScratch
    ensures { result ≡ scratch_of (scratch_words_of image.now) }
{
    ErmScratch::from(maxminddb::scratch_words(image))
}

pub fn erm_verify(image: &[u8], words: &mut [u64], budget: u64) -> ErmVerified
    ensures { checked result words.new ≡ verify_door (verify_of image.now words.old budget) }
{
    ErmVerified::from(maxminddb::verify(image, words, budget))
}
