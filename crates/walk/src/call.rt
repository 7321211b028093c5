// A walk's call. The one loop owns the walk and writes in place: a walk is long, and each pass by value is a copy.
ghost use Rattle.std.specs.Prelude.{◌≡◌};
ghost use Rattle.walk.specs.Calls.{next_of};

use crate::start::no_place;
use crate::{Called, Walk};
use handle::{Handle, fits};
use place::{Outcome, Terms, Turn, child, frame_out, newest_out};
use refusal::Refusal;

pub fn next(image: &[u8], h: Handle, walk: Walk, budget: u64) -> Called
    ensures { result ≡ next_of image.now h walk budget }
{
    if !fits(h, image.len() as u64) {
        return Called {
            answer: Outcome::Refused(Refusal::Handle),
            taken: 0,
            walk,
        };
    }
    let base = h.base as usize;
    let marker = (h.meta - 14) as usize;
    let section = &image[base..marker];
    let none = no_place();
    let terms = Terms {
        handle: h,
        options: walk.options,
        width: walk.width,
    };
    let mut w = walk;
    let mut n: u64 = 0;
    // No `for` over the budget: with none left a walk still ends, or is out of shape, before it pauses.
    loop {
        let count = w.count;
        if count == 0 {
            return Called {
                answer: Outcome::End,
                taken: n,
                walk: w,
            };
        }
        if frame_out(count, terms.width) {
            return Called {
                answer: Outcome::Refused(Refusal::OutOfShape),
                taken: n,
                walk: w,
            };
        }
        let i = (count - 1) as usize;
        let p = w.places[i];
        if newest_out(h.nodes, count, terms.width, p) {
            return Called {
                answer: Outcome::Refused(Refusal::OutOfShape),
                taken: n,
                walk: w,
            };
        }
        if budget <= n {
            return Called {
                answer: Outcome::Paused,
                taken: n,
                walk: w,
            };
        }
        n += 1;
        w.places[i] = none;
        w.count = count - 1;
        match terms.visit(section, p) {
            Turn::Out(answer) => {
                return Called {
                    answer,
                    taken: n,
                    walk: w,
                };
            }
            Turn::Opened => {
                let right = child(image, h.size, terms.width, p, 1);
                let left = child(image, h.size, terms.width, p, 0);
                let j = count as usize;
                w.places[i] = right;
                w.places[j] = left;
                w.count = count + 1;
                continue;
            }
            Turn::Passed => {}
        }
    }
}
