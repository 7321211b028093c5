// What our entry points answer about an image, and whether it is the crate's verdict.
use crate::scratch::{ROOM, fill, is_left, words};
use crate::table::Kind;
use maxminddb::{scratch_words, verify};
use recorded::{Entry, number_at};
use refusal::Refusal;

// The number of distinct offsets or a refusal, and whether the scratch holds what it has to.
#[derive(Clone, Copy)]
struct Answer {
    verdict: Result<u64, Refusal>,
    is_clean: bool,
}

// A refusal's number, 0 if accepted.
fn number_of(verdict: Result<u64, Refusal>) -> u64 {
    match verdict {
        Ok(_) => 0,
        Err(why) => u64::from(why.number()),
    }
}

// How many words are 0 after an answer, where verification needs so many. Too short a scratch and the refusals of opening
// leave it as it was.
fn cleared_after(verdict: Result<u64, Refusal>, need: usize) -> usize {
    match verdict {
        Err(
            Refusal::Scratch
            | Refusal::NoMarker
            | Refusal::Metadata
            | Refusal::FormatVersion
            | Refusal::IpVersion
            | Refusal::NoNodes
            | Refusal::BuildTime
            | Refusal::RecordSize
            | Refusal::TreeTooLong,
        ) => 0,
        _ => need,
    }
}

// Verification with the first of the words lent. All words are looked at afterwards, lent or not.
fn verified(image: &[u8], lent: usize, need: usize, budget: u64) -> Answer {
    let mut scratch = words();
    fill(&mut scratch);
    let verdict = match scratch.get_mut(..lent) {
        Some(lent) => verify(image, lent, budget),
        None => Err(Refusal::Scratch),
    };
    Answer {
        verdict,
        is_clean: is_left(&scratch, cleared_after(verdict, need)),
    }
}

impl Answer {
    fn is_refused(self, number: u64) -> bool {
        self.is_clean && number_of(self.verdict) == number
    }

    fn is_recorded(self, entry: &Entry<'_>) -> bool {
        let recorded::Answer { kind, low, .. } = entry.answer;
        if kind == u8::from(Kind::Accepted) {
            self.is_clean && self.verdict == Ok(low)
        } else {
            kind == u8::from(Kind::Refused) && self.is_refused(low)
        }
    }
}

// With all words, with just enough, with one too few, and with no budget at all.
fn is_verdict(image: &[u8], entry: &Entry<'_>, need: usize, budget: u64) -> bool {
    let Some(short) = need.checked_sub(1) else {
        return false;
    };
    verified(image, ROOM, need, budget).is_recorded(entry)
        && verified(image, need, need, budget).is_recorded(entry)
        && verified(image, short, need, budget).is_refused(u64::from(Refusal::Scratch.number()))
        && verified(image, ROOM, need, 0).is_refused(entry.answer.high)
}

// An image that does not open is refused alike, whatever is lent.
fn is_unopened(image: &[u8], entry: &Entry<'_>, why: Refusal, budget: u64) -> bool {
    let number = u64::from(why.number());
    entry.answer.high == number
        && verified(image, ROOM, 0, budget).is_recorded(entry)
        && verified(image, 0, 0, budget).is_recorded(entry)
        && verified(image, ROOM, 0, 0).is_refused(number)
}

pub fn is_equal(image: &[u8], entry: &Entry<'_>) -> bool {
    let budget = number_at(entry.asked, 0, 8);
    match scratch_words(image) {
        Ok(need) => is_verdict(image, entry, need as usize, budget),
        Err(why) => is_unopened(image, entry, why, budget),
    }
}
