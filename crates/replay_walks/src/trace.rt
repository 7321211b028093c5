// A walk carried on to its end, call after call with the same budget, beside the lines that were recorded of it.
use crate::line::{LINE, Line, Sums};
use handle::Handle;
use place::Outcome;
use walk::Walk;

// No recorded walk takes so many calls.
const CALLS: u64 = 1000000;

// The recorded lines that are still to come, where lines are recorded, and the sums of those that came.
#[derive(Clone, Copy)]
pub struct Trace<'a> {
    pub lines: Option<&'a [u8]>,
    pub sums: Sums,
}

impl<'a> Trace<'a> {
    fn new(lines: &'a [u8]) -> Trace<'a> {
        Trace {
            lines: (!lines.is_empty()).then_some(lines),
            sums: Sums::default(),
        }
    }

    // Counts a line, and answers whether it is the next of the recorded ones.
    fn hand_out(&mut self, line: Line) -> bool {
        self.sums.add(line);
        let Some(lines) = self.lines else {
            return true;
        };
        let Some((next, rest)) = lines.split_first_chunk::<LINE>() else {
            return false;
        };
        self.lines = Some(rest);
        line == Line::recorded(next)
    }
}

// A call pauses after its budget's places and no sooner, and hands nothing out without taking a place.
fn is_count(answer: Outcome, taken: u64, budget: u64) -> bool {
    match answer {
        Outcome::Paused => taken == budget,
        Outcome::Given(_) | Outcome::Failed(_) => 1 <= taken && taken <= budget,
        Outcome::End => taken <= budget,
        Outcome::Refused(_) => false,
    }
}

// What the walk handed out, if it came to its end, all as recorded.
pub fn carry_on<'a>(
    image: &[u8],
    h: Handle,
    begun: Walk,
    budget: u64,
    lines: &'a [u8],
) -> Option<Trace<'a>> {
    let mut trace = Trace::new(lines);
    let mut walk = begun;
    for _ in 0..CALLS {
        let called = maxminddb::next(image, h, walk, budget);
        if !is_count(called.answer, called.taken, budget) {
            return None;
        }
        let is_next = match called.answer {
            Outcome::Given(network) => trace.hand_out(Line::from(network)),
            Outcome::Failed(why) => trace.hand_out(Line::failed(why)),
            Outcome::Paused => true,
            Outcome::End => return Some(trace),
            Outcome::Refused(_) => false,
        };
        if !is_next {
            return None;
        }
        walk = called.walk;
    }
    None
}
