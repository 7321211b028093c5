// What a walk hands out as one line of numbers, and what was handed out so far as sums of them.
use place::{Network, NetworkKind};
use recorded::number_at;
use refusal::Refusal;

// Bytes of a recorded line.
pub const LINE: usize = 22;

// A network's kind, or that a place failed.
#[derive(Clone, Copy)]
enum Kind {
    V4 = 0,
    V6 = 1,
    V4InV6Subtree = 2,
    Failed = 3,
}

// Kind, length, offset, upper and lower half of the key. A network's offset counts from 1, and 0 is no data; a failed place
// has its refusal there.
#[derive(Clone, Copy, PartialEq, Eq)]
pub struct Line {
    numbers: [u64; 5],
}

// How many lines, the sum of their numbers, and the sum of those sums, which their order changes.
#[derive(Clone, Copy, Default)]
pub struct Sums {
    pub lines: u64,
    pub plain: u64,
    pub ordered: u64,
}

impl From<NetworkKind> for Kind {
    fn from(kind: NetworkKind) -> Kind {
        match kind {
            NetworkKind::V4 => Kind::V4,
            NetworkKind::V6 => Kind::V6,
            NetworkKind::V4InV6Subtree => Kind::V4InV6Subtree,
        }
    }
}

impl From<Network> for Line {
    fn from(network: Network) -> Line {
        let Network {
            key,
            len,
            kind,
            offset,
        } = network;
        let offset = offset.map_or(0, |n| n.wrapping_add(1));
        Line {
            numbers: [Kind::from(kind) as u64, len, offset, key.high, key.low],
        }
    }
}

impl Line {
    pub fn failed(why: Refusal) -> Line {
        Line {
            numbers: [Kind::Failed as u64, 0, u64::from(why.number()), 0, 0],
        }
    }

    // The line that so many bytes hold.
    pub fn recorded(bytes: &[u8; LINE]) -> Line {
        Line {
            numbers: [
                number_at(bytes, 0, 1),
                number_at(bytes, 1, 1),
                number_at(bytes, 2, 4),
                number_at(bytes, 6, 8),
                number_at(bytes, 14, 8),
            ],
        }
    }
}

impl Sums {
    pub fn add(&mut self, line: Line) {
        self.lines = self.lines.wrapping_add(1);
        for number in line.numbers {
            self.plain = self.plain.wrapping_add(number);
            self.ordered = self.ordered.wrapping_add(self.plain);
        }
    }
}
