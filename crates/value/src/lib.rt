// The reading of one value.
#![tactic(auto)]

ghost use Rattle.std.specs.Prelude.{◌≡◌, ◌+◌, ◌≤◌, length};
ghost use Rattle.stored.specs.Stored.{Lies};
ghost use Rattle.value.specs.Numbers.{double_of, float_of, wide_at};
ghost use Rattle.value.specs.Value.{text_at, value_of, read_at};
ghost use Rattle.value.specs.Parts.{size_of, part_at, or_nothing, spanned, parts};
ghost use Rattle.value.specs.Empty.{empty_of, empty_at};

use charge::{Charge, count_payload, reserve_values};
use control::{Head, Kind, behind};
use number::be;
use refusal::Refusal;
use stored::{Layout, resolved};
use text::utf8;

// A value as it is read. A double and a float come with their exact bits.
#[derive(Clone, Copy)]
pub enum Value {
    Map(usize),
    Array(usize),
    Text(usize),
    Bytes(usize),
    U16(u16),
    U32(u32),
    U64(u64),
    U128(u64, u64),
    I32(i32),
    Boolean(bool),
    Double(f64, u64),
    Float(f32, u32),
}

// The bits of an infinity; with the sign dropped, a NaN's are above them.
const INFINITE_DOUBLE: u64 = 0x7ff0_0000_0000_0000;

const INFINITE_FLOAT: u32 = 0x7f80_0000;

// `from_bits` has no meaning at a NaN's bits: there the language's one NaN stands beside them.
// Two functions for two widths: std has no trait over f64 and f32, and one of our own would be longer than both.
fn double(bits: u64) -> Value
    ensures { result ≡ double_of bits }
{
    if bits % 0x8000_0000_0000_0000 > INFINITE_DOUBLE {
        Value::Double(f64::NAN, bits)
    } else {
        Value::Double(f64::from_bits(bits), bits)
    }
}

fn float(bits: u32) -> Value
    ensures { result ≡ float_of bits }
{
    if bits % 0x8000_0000 > INFINITE_FLOAT {
        Value::Float(f32::NAN, bits)
    } else {
        Value::Float(f32::from_bits(bits), bits)
    }
}

#[tactic(auto, using(crate::proofs::NumberLaws::wide_high, crate::proofs::NumberLaws::wide_low))]
fn decode_uint128(s: &[u8], size: usize, payload: usize) -> Value
    requires { (size ≤ 16) × (payload + size ≤ length s.now) }
    ensures { result ≡ wide_at s.now payload size }
{
    if size <= 8 {
        Value::U128(0, be(s, payload, size))
    } else {
        Value::U128(be(s, payload, size - 8), be(s, payload + (size - 8), 8))
    }
}

fn decode_string(s: &[u8], size: usize, payload: usize) -> Result<Value, Refusal>
    requires { payload + size ≤ length s.now }
    ensures { result ≡ text_at s.now payload size }
{
    if utf8(&s[payload..payload + size]) {
        Ok(Value::Text(size))
    } else {
        Err(Refusal::Malformed)
    }
}

fn value_of(s: &[u8], layout: Layout, c: Charge) -> Result<Value, Refusal>
    requires { Lies (length s.now) layout.kind layout.size layout.payload }
    ensures { result ≡ value_of s.now layout.kind layout.size layout.payload c }
{
    let Layout {
        kind,
        size,
        payload,
        next: _,
    } = layout;
    match kind {
        Kind::Pointer => Err(Refusal::Malformed),
        Kind::Text => {
            count_payload(c, size).ok_or(Refusal::Malformed)?;
            decode_string(s, size, payload)
        }
        Kind::Double => Ok(double(be(s, payload, 8))),
        Kind::Bytes => {
            count_payload(c, size).ok_or(Refusal::Malformed)?;
            Ok(Value::Bytes(size))
        }
        Kind::U16 => Ok(Value::U16(be(s, payload, size) as u16)),
        Kind::U32 => Ok(Value::U32(be(s, payload, size) as u32)),
        Kind::Map => {
            reserve_values(c, size * 2).ok_or(Refusal::Malformed)?;
            Ok(Value::Map(size))
        }
        Kind::I32 => Ok(Value::I32((be(s, payload, size) as u32).cast_signed())),
        Kind::U64 => Ok(Value::U64(be(s, payload, size))),
        Kind::U128 => Ok(decode_uint128(s, size, payload)),
        Kind::Array => {
            reserve_values(c, size).ok_or(Refusal::Malformed)?;
            Ok(Value::Array(size))
        }
        Kind::Boolean => Ok(Value::Boolean(size == 1)),
        Kind::Float => Ok(float(be(s, payload, 4) as u32)),
        Kind::Unknown => Err(Refusal::Malformed),
    }
}

// The value that a place leads to, behind at most one pointer.
#[tactic(auto, using(crate::proofs::PartLaws::resolved_lies), unfolding(crate::specs::Value::read_at))]
pub fn read(s: &[u8], at: usize, c: Charge) -> Result<Value, Refusal>
    ensures { result ≡ read_at s.now at c }
{
    let layout = resolved(s, at).ok_or(Refusal::Malformed)?;
    value_of(s, layout, c)
}

// How many bytes a text has or, asked for `bytes`, a value of bytes: the flag is that of `part_of`, which the functions for C promise.
pub fn payload_size(v: Value, bytes: bool) -> Option<usize>
    ensures { result ≡ size_of bytes v }
{
    match v {
        Value::Text(n) if !bytes => Some(n),
        Value::Bytes(n) if bytes => Some(n),
        _ => None,
    }
}

// Where the bytes of a text lie, or of a value of bytes, and how many: none where reading refuses or gives another kind.
#[tactic(auto, using(crate::proofs::PartLaws::resolved_lies), unfolding(crate::specs::Parts::part_at, crate::specs::Value::read_at))]
pub fn place(s: &[u8], at: usize, c: Charge, bytes: bool) -> Option<(usize, usize)>
    ensures { result ≡ part_at s.now at c bytes }
{
    let layout = resolved(s, at)?;
    let size = payload_size(value_of(s, layout, c).ok()?, bytes)?;
    Some((layout.payload, size))
}

// These bytes, as a part of the section, where there are any.
#[tactic(auto, using(crate::proofs::PartLaws::part_ends))]
pub fn found<'a>(s: &'a [u8], at: usize, c: Charge, bytes: bool) -> Option<&'a [u8]>
    ensures { result ≡ parts s.entry (part_at s.now at c bytes) }
{
    let (from, size) = place(s, at, c, bytes)?;
    Some(&s[from..from + size])
}

// These bytes, or the section's first 0: for who asks for a part without asking whether there is one.
pub fn part<'a>(s: &'a [u8], at: usize, c: Charge, bytes: bool) -> &'a [u8]
    ensures result_value { result.now ≡ spanned s.now (or_nothing (part_at s.now at c bytes)) }
    ensures ref_ptr_value { result.ref_ptr ≡ (s.entry.ref_ptr.0, s.entry.ref_ptr.1 + (or_nothing (part_at s.now at c bytes)).0) }
{
    found(s, at, c, bytes).unwrap_or(&s[..0])
}

fn is_empty(head: Head) -> bool
    ensures { result ≡ empty_of head.kind head.size }
{
    head.size == 0 && matches!(head.kind, Kind::Map | Kind::Array)
}

// Whether a map or an array without children stands at a place; the header alone decides.
#[tactic(auto, unfolding(crate::specs::Empty::empty_at))]
pub fn is_empty_value_at(s: &[u8], at: usize) -> Result<bool, Refusal>
    ensures { result ≡ empty_at s.now at }
{
    let head = behind(s, at).ok_or(Refusal::Malformed)?;
    Ok(is_empty(head))
}
