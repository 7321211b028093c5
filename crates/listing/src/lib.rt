// The lines of a listing, written into a lent buffer. Each function writes at a place and answers the place past its text.
#![tactic(auto)]

ghost use Rattle.std.specs.Prelude.{◌≡◌, ◌+◌, ◌≤◌, ◌<◌, length};
ghost use Rattle.std.proofs.lemmas.List.Edits.{sets};
ghost use Rattle.listing.specs.Digits.{glyph_of, digits, places, decimal};
ghost use Rattle.listing.specs.Lines.{key_text, offset_text, network_line, error_line, line_of, Wrote};

use number::Key;
use place::{Network, Outcome};

// The digit of a number below 16.
fn glyph(d: u64) -> u8
    requires { d < 16 }
    ensures { result ≡ glyph_of d }
{
    if d < 10 {
        b'0' + d as u8
    } else {
        b'a' + (d as u8 - 10)
    }
}

// The last digits of a number, written from the lowest up.
fn put_digits(buf: &mut [u8], at: usize, n: u64, base: u64, count: usize)
    requires base_nonzero { (0 < base) × (base ≤ 16) }
    requires count_in_bounds { at + count ≤ length buf.old }
    ensures { buf.new ≡ sets buf.old at (digits base count n) }
{
    let mut rest = n;
    for left in (0..count).rev() {
        buf[at + left] = glyph(rest % base);
        rest /= base;
    }
}

// How many decimal digits a number has: 20 is the most that 64 bits take.
fn decimal_places(n: u64) -> usize
    ensures { (result ≡ places 19 n) × (result ≤ 20) }
{
    match n.checked_ilog10() {
        Some(log) => log as usize + 1,
        None => 1,
    }
}

fn put_decimal(buf: &mut [u8], at: usize, n: u64) -> usize
    requires { at + 20 ≤ length buf.old }
    ensures { Wrote 20 buf.old at (decimal n) result buf.new }
{
    let count = decimal_places(n);
    put_digits(buf, at, n, 10, count);
    at + count
}

fn put_text(buf: &mut [u8], at: usize, text: &[u8]) -> usize
    requires { at + length text.now ≤ length buf.old }
    ensures { Wrote (length text.now) buf.old at text.now result buf.new }
{
    let end = at + text.len();
    buf[at..end].copy_from_slice(text);
    end
}

// A key in hexadecimal: 8 digits for IPv4, 32 for IPv6.
fn put_key(buf: &mut [u8], at: usize, width: u64, key: Key) -> usize
    requires { at + 32 ≤ length buf.old }
    ensures { Wrote 32 buf.old at (key_text width key) result buf.new }
{
    if width == 32 {
        put_digits(buf, at, key.low, 16, 8);
        return at + 8;
    }
    put_digits(buf, at, key.high, 16, 16);
    put_digits(buf, at + 16, key.low, 16, 16);
    at + 32
}

fn put_offset(buf: &mut [u8], at: usize, offset: Option<u64>) -> usize
    requires { at + 20 ≤ length buf.old }
    ensures { Wrote 20 buf.old at (offset_text offset) result buf.new }
{
    match offset {
        Some(n) => put_decimal(buf, at, n),
        None => put_text(buf, at, b"-"),
    }
}

fn put_network(buf: &mut [u8], at: usize, width: u64, network: Network) -> usize
    requires { at + 75 ≤ length buf.old }
    ensures { Wrote 75 buf.old at (network_line width network) result buf.new }
{
    let key = network.key;
    let offset = network.offset;
    let past_key = put_key(buf, at, width, key);
    let slash = put_text(buf, past_key, b"/");
    let past_len = put_decimal(buf, slash, network.len);
    let space = put_text(buf, past_len, b" ");
    let past_offset = put_offset(buf, space, offset);
    put_text(buf, past_offset, b"\n")
}

// The line of a refusal.
pub fn put_error(buf: &mut [u8], at: usize, number: u8) -> usize
    requires { at + 75 ≤ length buf.old }
    ensures { Wrote 75 buf.old at (error_line number) result buf.new }
{
    let word = put_text(buf, at, b"error ");
    let past_number = put_decimal(buf, word, number as u64);
    put_text(buf, past_number, b"\n")
}

// The line of what a walk's call hands out; a pause has none.
pub fn put_outcome(buf: &mut [u8], at: usize, width: u64, outcome: Outcome) -> usize
    requires { at + 75 ≤ length buf.old }
    ensures { Wrote 75 buf.old at (line_of width outcome) result buf.new }
{
    match outcome {
        Outcome::Given(network) => put_network(buf, at, width, network),
        Outcome::Failed(refusal) | Outcome::Refused(refusal) => {
            put_error(buf, at, refusal.number())
        }
        Outcome::Paused => at,
        Outcome::End => put_text(buf, at, b"end\n"),
    }
}
