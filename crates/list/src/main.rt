// Lists the networks of the image on standard input: a full walk, aliases, networks without data and empty values kept.
#![tactic(auto)]

ghost use Rattle.std.specs.Prelude.{◌≡◌, length};

use handle::Handle;
use place::{Options, Outcome};
use recorded::read_full;
use refusal::Refusal;
use std::io;
use walk::{Range, Started, Walk};

// The longest image that is listed.
const LONGEST: usize = 65536;

// The most places that one call may take, and the most calls: no listing lasts so long.
const BUDGET: u64 = 4294967296;

const CALLS: u64 = u64::MAX;

// One byte more than the longest image, to see that one is longer.
fn image_room() -> [u8; 65537]
    ensures { 65537 ≡ length result }
{
    [0; 65537]
}

fn write_error(rt: &impl Print, why: Refusal) -> io::Result<()> {
    let mut line = [0u8; 80];
    let n = listing::put_error(&mut line, 0, why.number());
    rt.write_all(&line[..n])
}

fn write_outcome(rt: &impl Print, width: u64, answer: Outcome) -> io::Result<()> {
    let mut line = [0u8; 80];
    let n = listing::put_outcome(&mut line, 0, width, answer);
    rt.write_all(&line[..n])
}

// A failed place is gone and the walk goes on; a refused call would be refused again.
fn list_walk(rt: &impl Print, image: &[u8], h: Handle, begun: Walk) -> io::Result<()> {
    let width = begun.width;
    let mut walk = begun;
    for _ in 0..CALLS {
        let called = maxminddb::next(image, h, walk, BUDGET);
        write_outcome(rt, width, called.answer)?;
        if matches!(called.answer, Outcome::End | Outcome::Refused(_)) {
            break;
        }
        walk = called.walk;
    }
    Ok(())
}

fn list_from(rt: &impl Print, image: &[u8], h: Handle) -> io::Result<()> {
    let everything = Options {
        aliased: true,
        dataless: true,
        skipempty: false,
    };
    let Started { status, walk } = maxminddb::within(image, h, Range::whole(h), everything);
    match status {
        Ok(()) => list_walk(rt, image, h, walk),
        Err(why) => write_error(rt, why),
    }
}

fn list(rt: &impl Print, image: &[u8]) -> io::Result<()> {
    match maxminddb::open(image) {
        Ok(reader) => list_from(rt, image, reader.handle),
        Err(why) => write_error(rt, why),
    }
}

fn main(rt: HostRuntime) -> io::Result<()> {
    let mut room = image_room();
    let n = read_full(&mut rt.stdin(), &mut room)?;
    if LONGEST < n {
        return rt.write_all(b"too long\n");
    }
    list(&rt, &room[..n])
}
