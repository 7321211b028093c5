// Many networks in one call, each a row of a lent buffer: as single calls one after the other, and as `call::next` the one loop
// owns the walk and writes in place.
ghost use Rattle.std.specs.Prelude.{◌≡◌, not, ◌&&◌, ◌+◌, ◌*◌, ◌≤◌, eqb, ltb, length};
ghost use Rattle.place.specs.Turns.{turn_of};
ghost use Rattle.walk.specs.Rows.{kind_number, offset_word, put, poured, rows_of};

use crate::Walk;
use crate::start::no_place;
use handle::{Handle, fits};
use place::{Network, NetworkKind, Outcome, Place, Terms, Turn, child, frame_out, newest_out};
use refusal::Refusal;

// The words of a row: the key's halves, the length, the kind, and the offset.
pub const ROW_WORDS: usize = 5;

// In place of an offset: no data.
pub const NO_DATA: u64 = 18446744073709551615;

// Why a call ended: no room for a further row, or as the first single call that gave no network. No `Result`, as `Outcome` is none.
#[derive(Clone, Copy)]
pub enum Halt {
    Full,
    Failed(Refusal),
    Refused(Refusal),
    Paused,
    End,
}

#[derive(Drop)]
pub struct Filled {
    pub rows: u64,
    pub taken: u64,
    pub halt: Halt,
    pub walk: Walk,
}

pub fn kind_number(kind: NetworkKind) -> u64
    ensures { result ≡ kind_number kind }
{
    kind as u64
}

pub fn offset_word(offset: Option<u64>) -> u64
    ensures { result ≡ offset_word offset }
{
    offset.unwrap_or(NO_DATA)
}

fn put_row(out: &mut [u64], row: usize, n: Network)
    requires { row * 5 + 5 ≤ length out.old }
    ensures { out.new ≡ put out.old row n }
{
    let j = row * ROW_WORDS;
    out[j] = n.key.high;
    out[j + 1] = n.key.low;
    out[j + 2] = n.len;
    out[j + 3] = kind_number(n.kind);
    out[j + 4] = offset_word(n.offset);
}

// Whether a value is that of a node that has children and is no alias: then taking it needs no call.
fn is_plain_node(nodes: u64, start4: u64, width: u64, value: u64, len: u64) -> bool
    ensures { result ≡ (ltb value nodes && (not (eqb value start4) && ltb len width)) }
{
    value < nodes && value != start4 && len < width
}

// What taking a place comes to; one without data that is not asked for needs no call.
fn taking(section: &[u8], terms: &Terms, p: Place) -> Turn
    requires { (p.len ≤ terms.now.width) × (terms.now.width ≤ 128) }
    ensures { result ≡ turn_of section.now terms.now.handle terms.now.options terms.now.width p }
{
    if p.value == terms.handle.nodes && !terms.options.dataless {
        return Turn::Passed;
    }
    terms.visit(section, p)
}

pub fn next_rows(image: &[u8], h: Handle, walk: Walk, out: &mut [u64], budget: u64) -> Filled
    ensures { poured result out.new ≡ rows_of image.now h walk budget out.old }
{
    if !fits(h, image.len() as u64) {
        return Filled {
            rows: 0,
            taken: 0,
            halt: Halt::Refused(Refusal::Handle),
            walk,
        };
    }
    let base = h.base as usize;
    let marker = (h.meta - 14) as usize;
    let section = &image[base..marker];
    let none = no_place();
    let terms = Terms {
        handle: h,
        options: walk.options,
        width: walk.width,
    };
    let space = out.len() / ROW_WORDS;
    let mut w = walk;
    let mut n: u64 = 0;
    let mut row: usize = 0;
    // No `for`: a place that is passed over fills no row.
    'rows: while row < space {
        let first = w.count;
        if first == 0 {
            return Filled {
                rows: row as u64,
                taken: n,
                halt: Halt::End,
                walk: w,
            };
        }
        if frame_out(first, terms.width) {
            return Filled {
                rows: row as u64,
                taken: n,
                halt: Halt::Refused(Refusal::OutOfShape),
                walk: w,
            };
        }
        let f = (first - 1) as usize;
        let mut p = w.places[f];
        // The newest place is held here; its room is written when it is taken, or when the call ends. As in `call::next`, no `for`.
        loop {
            let count = w.count;
            let i = (count - 1) as usize;
            if newest_out(h.nodes, count, terms.width, p) {
                w.places[i] = p;
                return Filled {
                    rows: row as u64,
                    taken: n,
                    halt: Halt::Refused(Refusal::OutOfShape),
                    walk: w,
                };
            }
            if budget <= n {
                w.places[i] = p;
                return Filled {
                    rows: row as u64,
                    taken: n,
                    halt: Halt::Paused,
                    walk: w,
                };
            }
            n += 1;
            if is_plain_node(h.nodes, h.start4, terms.width, p.value, p.len) {
                let right = child(image, h.size, terms.width, p, 1);
                let left = child(image, h.size, terms.width, p, 0);
                w.places[i] = right;
                w.count = count + 1;
                p = left;
                continue;
            }
            match taking(section, &terms, p) {
                Turn::Out(answer) => {
                    w.places[i] = none;
                    w.count = count - 1;
                    match answer {
                        Outcome::Given(network) => {
                            put_row(out, row, network);
                            row += 1;
                            continue 'rows;
                        }
                        Outcome::Failed(refusal) => {
                            return Filled {
                                rows: row as u64,
                                taken: n,
                                halt: Halt::Failed(refusal),
                                walk: w,
                            };
                        }
                        Outcome::Refused(refusal) => {
                            return Filled {
                                rows: row as u64,
                                taken: n,
                                halt: Halt::Refused(refusal),
                                walk: w,
                            };
                        }
                        Outcome::Paused => {
                            return Filled {
                                rows: row as u64,
                                taken: n,
                                halt: Halt::Paused,
                                walk: w,
                            };
                        }
                        Outcome::End => {
                            return Filled {
                                rows: row as u64,
                                taken: n,
                                halt: Halt::End,
                                walk: w,
                            };
                        }
                    }
                }
                Turn::Opened => {
                    let right = child(image, h.size, terms.width, p, 1);
                    let left = child(image, h.size, terms.width, p, 0);
                    w.places[i] = right;
                    w.count = count + 1;
                    p = left;
                }
                Turn::Passed => {
                    w.places[i] = none;
                    w.count = count - 1;
                    continue 'rows;
                }
            }
        }
    }
    Filled {
        rows: row as u64,
        taken: n,
        halt: Halt::Full,
        walk: w,
    }
}
