// What our functions answer to a recorded question, and whether it is what the crate answered.
use crate::steps::arrived;
use crate::table::{Kind, Question};
use charge::Charge;
use path::Cursor;
use recorded::{Answer, Entry};
use refusal::Refusal;
use skip::skip_value;
use value::{Value, is_empty_value_at, part, read};

fn plain(kind: Kind, low: u64) -> Answer {
    Answer::new(kind, 0, low)
}

// The bits of the number itself, which must be the bits that came beside it; a NaN has no bits of its own.
fn double_bits(x: f64, bits: u64) -> u64 {
    if x.is_nan() { bits } else { x.to_bits() }
}

fn float_bits(x: f32, bits: u32) -> u32 {
    if x.is_nan() { bits } else { x.to_bits() }
}

// The table has no signs: an i32 is counted from the lowest.
fn value_answer(value: Value) -> Answer {
    match value {
        Value::Map(n) => plain(Kind::Map, n as u64),
        Value::Array(n) => plain(Kind::Array, n as u64),
        Value::Text(n) => plain(Kind::Text, n as u64),
        Value::Bytes(n) => plain(Kind::Bytes, n as u64),
        Value::U16(n) => plain(Kind::U16, u64::from(n)),
        Value::U32(n) => plain(Kind::U32, u64::from(n)),
        Value::U64(n) => plain(Kind::U64, n),
        Value::U128(high, low) => Answer::new(Kind::U128, high, low),
        Value::I32(n) => plain(Kind::I32, u64::from(n.abs_diff(i32::MIN))),
        Value::Boolean(b) => plain(Kind::Boolean, u64::from(b)),
        Value::Double(x, bits) => Answer::new(Kind::Double, double_bits(x, bits), bits),
        Value::Float(x, bits) => Answer::new(
            Kind::Float,
            u64::from(float_bits(x, bits)),
            u64::from(bits),
        ),
    }
}

// The part that is handed out is the recorded content, or empty where another kind was recorded.
fn is_part(section: &[u8], cursor: Cursor, bytes: bool, is_wanted: bool, content: &[u8]) -> bool {
    let wanted: &[u8] = if is_wanted { content } else { &[] };
    part(section, cursor.place, cursor.charge, bytes) == wanted
}

fn is_read(section: &[u8], cursor: Cursor, entry: &Entry<'_>) -> bool {
    let Entry {
        answer,
        content,
        ..
    } = *entry;
    let ours = match read(section, cursor.place, cursor.charge) {
        Ok(value) => value_answer(value),
        Err(why) => Answer::refused(why),
    };
    answer == ours
        && is_part(
            section,
            cursor,
            false,
            answer.kind == u8::from(Kind::Text),
            content,
        )
        && is_part(
            section,
            cursor,
            true,
            answer.kind == u8::from(Kind::Bytes),
            content,
        )
}

fn is_path_read(section: &[u8], entry: &Entry<'_>) -> bool {
    match arrived(section, entry.place, entry.asked) {
        Ok(Some(cursor)) => is_read(section, cursor, entry),
        Ok(None) => entry.answer == plain(Kind::Absent, 0),
        Err(why) => entry.answer == Answer::refused(why),
    }
}

fn skipping(section: &[u8], place: usize) -> Answer {
    let nothing = Charge {
        values: 0,
        payload: 0,
    };
    match skip_value(section, place, nothing) {
        Some(past) => plain(Kind::Past, past.next as u64),
        None => Answer::refused(Refusal::Malformed),
    }
}

fn emptiness(section: &[u8], place: usize) -> Answer {
    match is_empty_value_at(section, place) {
        Ok(true) => plain(Kind::Empty, 0),
        Ok(false) => plain(Kind::Holds, 0),
        Err(why) => Answer::refused(why),
    }
}

pub fn is_equal(section: &[u8], entry: &Entry<'_>) -> bool {
    match Question::try_from(entry.question) {
        Ok(Question::Reading) => is_path_read(section, entry),
        Ok(Question::Skipping) => entry.answer == skipping(section, entry.place),
        Ok(Question::EmptyCheck) => entry.answer == emptiness(section, entry.place),
        Err(()) => false,
    }
}
