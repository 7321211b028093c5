// A table of recorded answers: entries one after the other, each a header of fixed size, then what was asked with, then
// content. The README.md beside each table says what its entries mean.
#![tactic(auto)]

pub mod tally;

ghost use Rattle.std.specs.Prelude.{◌≡◌, ◌+◌, ◌*◌, ◌≤◌, ◌==◌, cond, IfOk, IfSome, length};
ghost use Rattle.refusal.specs.Refusals.{number_of};

use refusal::Refusal;
use std::io;
use std::io::Read;
use tally::{Row, Tally};

const HEADER: usize = 26;

// The question of an entry that is none: it brings an image, which the rows after it are about.
const IMAGE: u8 = 0;

// The kind of a refused answer. Its number is the lower of the two.
const REFUSED: u8 = 0;

// An answer as a table has it: its kind, and two numbers.
#[derive(Clone, Copy, PartialEq, Eq)]
pub struct Answer {
    pub kind: u8,
    pub high: u64,
    pub low: u64,
}

// An entry: what its header says, what was asked with, and its content.
#[derive(Clone, Copy)]
pub struct Entry<'a> {
    pub question: u8,
    pub place: usize,
    pub answer: Answer,
    pub asked: &'a [u8],
    pub content: &'a [u8],
}

impl Answer {
    pub fn new(kind: impl Into<u8>, high: u64, low: u64) -> Answer
        ensures { (result.high ≡ high) × (result.low ≡ low) }
    {
        Answer {
            kind: kind.into(),
            high,
            low,
        }
    }

    pub fn refused(why: Refusal) -> Answer
        ensures { result ≡ record { kind = 0; high = 0; low = number_of why } }
    {
        Answer {
            kind: REFUSED,
            high: 0,
            low: u64::from(why.number()),
        }
    }

    // The slot that it is counted in: refused ones are counted by their number.
    pub fn slot(&self) -> usize
        ensures { result ≡ cond (self.now.kind == 0) self.now.low self.now.kind }
    {
        if self.kind == REFUSED {
            self.low as usize
        } else {
            usize::from(self.kind)
        }
    }
}

// Room for a table.
pub fn zeros() -> [u8; 1310720]
    ensures { 1310720 ≡ length result }
{
    [0; 1310720]
}

// Reads until the room is full or the input ends, and answers how many bytes came. The library has it only where the bytes
// must be all there, or for a room that grows.
pub fn read_full(input: &mut impl Read, room: &mut [u8]) -> io::Result<usize>
    ensures { IfOk result (λ n. n ≤ length room.new) }
{
    let mut done: usize = 0;
    while done < room.len() {
        let n = input.read(&mut room[done..])?;
        if n == 0 {
            break;
        }
        done += n;
    }
    Ok(done)
}

// The number that some bytes spell, highest byte first.
fn number(bytes: &[u8]) -> u64 {
    bytes
        .iter()
        .fold(0, |above, byte| above << 8 | u64::from(*byte))
}

// The number that so many bytes spell; 0 where they are not all there.
pub fn number_at(bytes: &[u8], at: usize, size: usize) -> u64 {
    bytes
        .get(at..)
        .and_then(|rest| rest.get(..size))
        .map_or(0, |all| number(all))
}

// The first entry of a table, and the rest of the table after it.
pub fn entry_at(table: &[u8]) -> Option<(Entry<'_>, &[u8])>
    ensures { IfSome result (λ r. 26 + length r.0.asked.now + length r.0.content.now + length r.1.now ≡ length table.now) }
{
    let (header, rest) = table.split_first_chunk::<HEADER>()?;
    let (asked, rest) = rest.split_at_checked(number(&header[4..6]) as usize)?;
    let (content, rest) = rest.split_at_checked(number(&header[7..10]) as usize)?;
    let entry = Entry {
        question: header[0],
        place: number(&header[1..4]) as usize,
        answer: Answer {
            kind: header[6],
            high: number(&header[10..18]),
            low: number(&header[18..]),
        },
        asked,
        content,
    };
    Some((entry, rest))
}

// Goes over a table from a place on, and counts its rows. `reach` says how many bytes before its content an image begins,
// `row` what an image's row comes to.
pub fn replay<R, A>(
    rt: &impl Print,
    table: &[u8],
    from: usize,
    reach: R,
    row: A,
) -> io::Result<Tally>
where
    R: Fn(&Entry<'_>) -> usize,
    A: Fn(&[u8], &Entry<'_>) -> Row,
    requires reach { R.IsAlwaysCallable reach }
    requires row { A.IsAlwaysCallable row }
    ensures { IfOk result (λ t. 26 * t.all.rows ≤ length table.now) }
{
    let mut tally = Tally::default();
    let mut image: &[u8] = &[];
    let mut rest = table.get(from..).unwrap_or(&[]);
    while let Some((entry, after)) = entry_at(rest) {
        rest = after;
        if entry.question == IMAGE {
            let end = table.len().saturating_sub(rest.len());
            let content = end.saturating_sub(entry.content.len());
            let start = content.checked_sub(reach(&entry)).unwrap_or(content);
            image = table.get(start..end).unwrap_or(&[]);
        } else {
            tally.count(row(image, &entry));
        }
    }
    if !rest.is_empty() {
        rt.write_all(b"the table is broken past these rows:\n")?;
    }
    Ok(tally)
}
