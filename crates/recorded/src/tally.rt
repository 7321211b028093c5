// What was counted, and how it is written.
ghost use Rattle.std.specs.Prelude.{◌≡◌, ◌+◌, ◌%◌, ◌^◌, cond, Some};
ghost use Rattle.std.specs.Option.{option_or};

use crate::Entry;
use refusal::Refusal;
use std::fmt;

// One count for each question, or for each kind of answer: as many as refusals have numbers, and 0.
pub const SLOTS: usize = 25;

// What a row counts as: by its question, by the kind of the answer that was recorded, and whether ours is equal.
#[derive(Clone, Copy)]
pub struct Row {
    pub question: u8,
    pub kind: usize,
    pub is_equal: bool,
}

impl Row {
    pub fn new(entry: &Entry<'_>, is_equal: bool) -> Row
        ensures question { result.question ≡ entry.now.question }
        ensures equal { result.is_equal ≡ is_equal }
    {
        Row {
            question: entry.question,
            kind: entry.answer.slot(),
            is_equal,
        }
    }
}

// Rows, and how many of them are equal.
#[derive(Clone, Copy, Default)]
pub struct Count {
    pub rows: u64,
    pub equal: u64,
}

// What was counted: all rows, the first different one, rows by question, and by the kind of answer that was recorded.
#[derive(Clone, Copy, Default)]
pub struct Tally {
    pub all: Count,
    pub first: Option<u64>,
    pub questions: [Count; SLOTS],
    pub kinds: [u64; SLOTS],
}

impl Count {
    fn add(&mut self, is_equal: bool)
        ensures rows { self.new.rows ≡ (self.old.rows + 1) % 2 ^ 64 }
        ensures equal { self.new.equal ≡ cond is_equal ((self.old.equal + 1) % 2 ^ 64) self.old.equal }
    {
        self.rows = self.rows.wrapping_add(1);
        if is_equal {
            self.equal = self.equal.wrapping_add(1);
        }
    }
}

impl fmt::Display for Count {
    fn fmt<W: fmt::Write>(&self, f: &mut fmt::Formatter<W>) -> fmt::Result {
        let rows = self.rows;
        let equal = self.equal;
        write!(f, "{rows} rows, {equal} equal")
    }
}

// The counts of some refusals, by their numbers.
#[derive(Clone, Copy)]
pub struct Refused<'a> {
    tally: &'a Tally,
    refusals: &'a [Refusal],
}

impl Tally {
    pub fn count(&mut self, row: Row)
        ensures rows { self.new.all.rows ≡ (self.old.all.rows + 1) % 2 ^ 64 }
        ensures equal { self.new.all.equal ≡ cond row.is_equal ((self.old.all.equal + 1) % 2 ^ 64) self.old.all.equal }
        ensures first { self.new.first ≡ cond row.is_equal self.old.first (option_or self.old.first (Some self.new.all.rows)) }
    {
        self.all.add(row.is_equal);
        if !row.is_equal {
            self.first = self.first.or(Some(self.all.rows));
        }
        if let Some(count) = self.questions.get_mut(usize::from(row.question)) {
            count.add(row.is_equal);
        }
        if let Some(rows) = self.kinds.get_mut(row.kind) {
            *rows = rows.wrapping_add(1);
        }
    }

    // The rows of a question.
    pub fn question(&self, question: impl Into<u8>) -> Count {
        let slot = usize::from(question.into());
        self.questions.get(slot).copied().unwrap_or_default()
    }

    // How many rows have a kind of answer.
    pub fn kind(&self, kind: impl Into<u8>) -> u64 {
        let slot = usize::from(kind.into());
        self.kinds.get(slot).copied().unwrap_or(0)
    }

    pub fn refused<'a>(&'a self, refusals: &'a [Refusal]) -> Refused<'a> {
        Refused {
            tally: self,
            refusals,
        }
    }
}

impl fmt::Display for Refused<'_> {
    fn fmt<W: fmt::Write>(&self, f: &mut fmt::Formatter<W>) -> fmt::Result {
        f.write_str("refused with")?;
        let mut comma = "";
        for refusal in self.refusals {
            let number = refusal.number();
            let rows = self.tally.kind(number);
            write!(f, "{comma} {number}: {rows}")?;
            comma = ",";
        }
        Ok(())
    }
}

// All rows, and which is the first different one.
impl fmt::Display for Tally {
    fn fmt<W: fmt::Write>(&self, f: &mut fmt::Formatter<W>) -> fmt::Result {
        let all = self.all;
        let different = all.rows.wrapping_sub(all.equal);
        write!(f, "{all}, {different} different")?;
        if let Some(first) = self.first {
            write!(f, "\nthe first different row is {first}")?;
        }
        Ok(())
    }
}
