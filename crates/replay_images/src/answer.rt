// What our entry points answer to a recorded question, and whether it is what the crate answered.
use crate::descriptions::{languages_of, last_in};
use crate::table::{Kind, Question};
use lookup::Address;
use maxminddb::{age, database_type, description, language, lookup, open};
use opening::Reader;
use recorded::{Answer, Entry, number_at};
use refusal::Refusal;
use tree::Found;

// Seven numbers of the handle and eight of the metadata, of eight bytes each; one more says how many languages its descriptions are in.
const NUMBERS: usize = 15;

fn plain(kind: Kind, low: u64) -> Answer {
    Answer::new(kind, 0, low)
}

fn numbers_of(reader: Reader) -> [u64; NUMBERS] {
    let Reader {
        handle: h,
        metadata: m,
    } = reader;
    [
        h.version,
        h.nodes,
        h.size,
        h.base,
        h.meta,
        h.start4,
        h.depth4,
        m.major,
        m.minor,
        m.build,
        m.version,
        m.nodes,
        m.size,
        m.database.size as u64,
        m.languages.size as u64,
    ]
}

// The languages are counted last, and only where all else is equal: for that the image is opened again and again.
fn is_reader(image: &[u8], reader: Reader, content: &[u8]) -> bool {
    let numbers = numbers_of(reader);
    content.len() == 8 * (NUMBERS + 1)
        && content
            .chunks(8)
            .zip(numbers.iter())
            .all(|(bytes, number)| number_at(bytes, 0, 8) == *number)
        && number_at(content, 8 * NUMBERS, 8)
            == languages_of(image, reader.metadata.description.size) as u64
}

fn is_opened(image: &[u8], entry: &Entry<'_>) -> bool {
    match open(image) {
        Ok(reader) => {
            entry.answer == plain(Kind::Opened, 0) && is_reader(image, reader, entry.content)
        }
        Err(why) => entry.answer == Answer::refused(why),
    }
}

// A text that is not there comes as no bytes.
fn is_text(entry: &Entry<'_>, text: &[u8]) -> bool {
    if entry.answer == plain(Kind::Text, 0) {
        text == entry.content
    } else {
        entry.answer == plain(Kind::Absent, 0) && text.is_empty()
    }
}

fn is_language(image: &[u8], entry: &Entry<'_>) -> bool {
    open(image).is_ok_and(|reader| {
        let is_there = entry.place < reader.metadata.languages.size;
        is_there == (entry.answer.kind == u8::from(Kind::Text))
            && is_text(entry, language(image, entry.place))
    })
}

fn is_description(image: &[u8], entry: &Entry<'_>) -> bool {
    open(image).is_ok_and(|reader| {
        last_in(image, reader.metadata.description.size, entry.asked).is_some_and(|at| is_text(
            entry,
            description(image, at),
        ))
    })
}

// Seconds since the build less seconds before it, of which one at least is 0.
fn seconds(since: u64, before: u64) -> Option<i64> {
    let since = i64::try_from(since).ok()?;
    let before = i64::try_from(before).ok()?;
    since.checked_sub(before)
}

fn is_age(image: &[u8], entry: &Entry<'_>) -> bool {
    let Answer { kind, high, low } = entry.answer;
    match age(image, number_at(entry.asked, 0, 8)) {
        Ok(n) => kind == u8::from(Kind::Seconds) && seconds(high, low) == Some(n),
        Err(why) => entry.answer == Answer::refused(why),
    }
}

fn address_of(bytes: &[u8]) -> Address {
    match bytes.as_array() {
        Some(four) => Address::V4(u32::from_be_bytes(*four)),
        None => Address::V6(number_at(bytes, 0, 8), number_at(bytes, 8, 8)),
    }
}

fn answer_of(found: Result<Found, Refusal>) -> Answer {
    match found {
        Ok(
            Found {
                offset: Some(offset),
                len,
            },
        ) => Answer::new(Kind::Data, offset, len),
        Ok(Found { offset: None, len }) => plain(Kind::NoData, len),
        Err(why) => Answer::refused(why),
    }
}

fn is_lookup(image: &[u8], entry: &Entry<'_>) -> bool {
    open(image).is_ok_and(|reader| {
        let found = lookup(image, reader.handle, address_of(entry.asked));
        entry.answer == answer_of(found)
    })
}

pub fn is_equal(image: &[u8], entry: &Entry<'_>) -> bool {
    match Question::try_from(entry.question) {
        Ok(Question::Opening) => is_opened(image, entry),
        Ok(Question::DatabaseType) => is_text(entry, database_type(image)),
        Ok(Question::Language) => is_language(image, entry),
        Ok(Question::Description) => is_description(image, entry),
        Ok(Question::Age) => is_age(image, entry),
        Ok(Question::Lookup) => is_lookup(image, entry),
        Err(()) => false,
    }
}
