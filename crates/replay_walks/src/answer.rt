// What our entry points answer to a recorded question, and whether it is what the crate answered.
use crate::table::Kind;
use crate::trace::carry_on;
use handle::Handle;
use maxminddb::{open, within};
use number::Key;
use place::Options;
use recorded::{Answer, Entry, number_at};
use walk::{Range, Started, Walk};

// What a walk was asked with: a budget of two bytes, a length of one, an address of four or sixteen.
const BUDGET: usize = 0;

const LENGTH: usize = 2;

const ADDRESS: usize = 3;

const OF_IPV4: usize = 7;

// Each of three bits is an option.
fn options_of(n: usize) -> Options {
    Options {
        aliased: n & 1 != 0,
        dataless: n & 2 != 0,
        skipempty: n & 4 != 0,
    }
}

fn range_of(asked: &[u8]) -> Range {
    let len = number_at(asked, LENGTH, 1);
    if asked.len() == OF_IPV4 {
        Range::Ipv4 {
            addr: u32::try_from(number_at(asked, ADDRESS, 4)).unwrap_or(0),
            len,
        }
    } else {
        Range::Ipv6 {
            addr: Key {
                high: number_at(asked, ADDRESS, 8),
                low: number_at(asked, ADDRESS + 8, 8),
            },
            len,
        }
    }
}

// All recorded lines were met, and there are as many.
fn is_lines(image: &[u8], h: Handle, begun: Walk, budget: u64, entry: &Entry<'_>) -> bool {
    let Answer { high, low, .. } = entry.answer;
    carry_on(image, h, begun, budget, entry.content).is_some_and(|trace| {
        let is_met = trace.lines.is_none_or(|lines| lines.is_empty());
        is_met && high == 0 && low == trace.sums.lines
    })
}

fn is_sums(image: &[u8], h: Handle, begun: Walk, budget: u64, entry: &Entry<'_>) -> bool {
    let Answer { high, low, .. } = entry.answer;
    let lines = number_at(entry.content, 0, 8);
    carry_on(image, h, begun, budget, &[]).is_some_and(|trace| {
        let sums = trace.sums;
        lines == sums.lines && high == sums.ordered && low == sums.plain
    })
}

pub fn is_equal(image: &[u8], entry: &Entry<'_>) -> bool {
    let asked = entry.asked;
    let Ok(reader) = open(image) else {
        return false;
    };
    let h = reader.handle;
    let Started { status, walk } = within(image, h, range_of(asked), options_of(entry.place));
    if let Err(why) = status {
        return entry.answer == Answer::refused(why);
    }
    let budget = number_at(asked, BUDGET, 2);
    match Kind::try_from(entry.answer.kind) {
        Ok(Kind::Lines) => is_lines(image, h, walk, budget, entry),
        Ok(Kind::Sums) => is_sums(image, h, walk, budget, entry),
        Err(()) => false,
    }
}
