// The static library for C: include/ermopinaw.h. Each function hands its arguments to the one of `exports` that has its name, and
// promises what that promises: the clauses stand in both, since a crate is a library or a static library.
#![tactic(auto)]

ghost use Rattle.std.specs.Prelude.{◌≡◌, true, false};
ghost use Rattle.opening.specs.Opening.{open_of, age_of};
ghost use Rattle.about.specs.About.{text_of};
ghost use Rattle.about.specs.declared.Wanted.TheVariants as wanted;
ghost use Rattle.maxminddb.specs.Entries.{read_of, part_of, key_of, index_of};
ghost use Rattle.verify.specs.Verify.{scratch_words_of, verify_of};
ghost use Rattle.spans.specs.Spans.{span_of};
ghost use Rattle.answers.specs.Answers.{opened_of, aged_of, valued_of, stepped_of, scratch_of};
ghost use Rattle.exports.specs.Doors.{lookup_door, begun, within_door, handed, next_door, checked, verify_door, rowed, rows_door};

use answers::{
    ErmAged, ErmCalled, ErmFound, ErmOpened, ErmScratch, ErmStepped, ErmValue, ErmVerified,
};
use exports::ErmFilled;
use handle::Handle;
use path::Cursor;
use spans::Span;

#[unsafe(no_mangle)]
pub extern "C" fn erm_open(image: &[u8]) -> ErmOpened
    ensures { result ≡ opened_of (open_of image.now) }
{
    exports::erm_open(image)
}

#[unsafe(no_mangle)]
pub extern "C" fn erm_age(image: &[u8], time: u64) -> ErmAged
    ensures { result ≡ aged_of (age_of image.now time) }
{
    exports::erm_age(image, time)
}

#[unsafe(no_mangle)]
pub extern "C" fn erm_database_type(image: &[u8]) -> Span
    ensures { result ≡ span_of (text_of image.now wanted.DatabaseType 0) }
{
    exports::erm_database_type(image)
}

#[unsafe(no_mangle)]
pub extern "C" fn erm_language(image: &[u8], index: usize) -> Span
    ensures { result ≡ span_of (text_of image.now wanted.Language index) }
{
    exports::erm_language(image, index)
}

#[unsafe(no_mangle)]
pub extern "C" fn erm_description_language(image: &[u8], index: usize) -> Span
    ensures { result ≡ span_of (text_of image.now wanted.DescriptionLanguage index) }
{
    exports::erm_description_language(image, index)
}

#[unsafe(no_mangle)]
pub extern "C" fn erm_description(image: &[u8], index: usize) -> Span
    ensures { result ≡ span_of (text_of image.now wanted.Description index) }
{
    exports::erm_description(image, index)
}

#[unsafe(no_mangle)]
pub extern "C" fn erm_lookup(
    image: &[u8],
    handle: Handle,
    width: u64,
    high: u64,
    low: u64,
) -> ErmFound
    ensures { result ≡ lookup_door image.now handle width high low }
{
    exports::erm_lookup(image, handle, width, high, low)
}

#[unsafe(no_mangle)]
pub extern "C" fn erm_read(image: &[u8], handle: Handle, cursor: Cursor) -> ErmValue
    ensures { result ≡ valued_of (read_of image.now handle cursor) }
{
    exports::erm_read(image, handle, cursor)
}

#[unsafe(no_mangle)]
pub extern "C" fn erm_text(image: &[u8], handle: Handle, cursor: Cursor) -> Span
    ensures { result ≡ span_of (part_of image.now handle cursor false) }
{
    exports::erm_text(image, handle, cursor)
}

#[unsafe(no_mangle)]
pub extern "C" fn erm_bytes(image: &[u8], handle: Handle, cursor: Cursor) -> Span
    ensures { result ≡ span_of (part_of image.now handle cursor true) }
{
    exports::erm_bytes(image, handle, cursor)
}

#[unsafe(no_mangle)]
pub extern "C" fn erm_step_key(
    image: &[u8],
    handle: Handle,
    cursor: Cursor,
    key: &[u8],
) -> ErmStepped
    ensures { result ≡ stepped_of (key_of image.now handle cursor key.now) }
{
    exports::erm_step_key(image, handle, cursor, key)
}

#[unsafe(no_mangle)]
pub extern "C" fn erm_step_index(
    image: &[u8],
    handle: Handle,
    cursor: Cursor,
    index: usize,
) -> ErmStepped
    ensures { result ≡ stepped_of (index_of image.now handle cursor index false) }
{
    exports::erm_step_index(image, handle, cursor, index)
}

#[unsafe(no_mangle)]
pub extern "C" fn erm_step_from_end(
    image: &[u8],
    handle: Handle,
    cursor: Cursor,
    index: usize,
) -> ErmStepped
    ensures { result ≡ stepped_of (index_of image.now handle cursor index true) }
{
    exports::erm_step_from_end(image, handle, cursor, index)
}

#[unsafe(no_mangle)]
pub extern "C" fn erm_within(
    image: &[u8],
    handle: Handle,
    width: u64,
    high: u64,
    low: u64,
    length: u64,
    options: u64,
    walk: &mut [u64],
) -> u64
    ensures { begun result walk.new ≡ within_door image.now handle width high low length options walk.old }
{
    exports::erm_within(image, handle, width, high, low, length, options, walk)
}

#[unsafe(no_mangle)]
pub extern "C" fn erm_next(image: &[u8], handle: Handle, walk: &mut [u64], budget: u64) -> ErmCalled
    ensures { handed result walk.new ≡ next_door image.now handle walk.old budget }
{
    exports::erm_next(image, handle, walk, budget)
}

#[unsafe(no_mangle)]
pub extern "C" fn erm_rows(
    image: &[u8],
    handle: Handle,
    walk: &mut [u64],
    out: &mut [u64],
    budget: u64,
) -> ErmFilled
    ensures { rowed result walk.new out.new ≡ rows_door image.now handle walk.old out.old budget }
{
    exports::erm_rows(image, handle, walk, out, budget)
}

#[unsafe(no_mangle)]
pub extern "C" fn erm_scratch_words(image: &[u8]) -> ErmScratch
    ensures { result ≡ scratch_of (scratch_words_of image.now) }
{
    exports::erm_scratch_words(image)
}

#[unsafe(no_mangle)]
pub extern "C" fn erm_verify(image: &[u8], words: &mut [u64], budget: u64) -> ErmVerified
    ensures { checked result words.new ≡ verify_door (verify_of image.now words.old budget) }
{
    exports::erm_verify(image, words, budget)
}
