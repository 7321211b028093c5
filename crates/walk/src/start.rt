// The start of a walk.
ghost use Rattle.std.specs.Prelude.{◌≡◌, true, ◌≤◌, length};
ghost use Rattle.handle.specs.Handle.{fits_of};
ghost use Rattle.walk.specs.Walks.{none, walk_from};
ghost use Rattle.walk.specs.Starts.{whole_range, asked_of, range_key, is_ipv6_in_ipv4, lacks_subtree, start_node, first_of, refused_start, begin_of};

use crate::{Asked, First, Range, Started, Walk};
use handle::{Handle, fits};
use number::{Key, masked};
use place::{Options, Place, has_ipv4_subtree};
use refusal::Refusal;
use tree::lookup::descend;

impl Range {
    // All addresses of the image's own width.
    pub fn whole(h: Handle) -> Range
        ensures { result ≡ whole_range h }
    {
        if h.version == 4 {
            Range::Ipv4 { addr: 0, len: 0 }
        } else {
            Range::Ipv6 {
                addr: Key { high: 0, low: 0 },
                len: 0,
            }
        }
    }
}

impl From<Range> for Asked {
    ghost from_gives = { λ range asked. asked ≡ asked_of range };

    fn from(range: Range) -> Asked {
        match range {
            Range::Ipv4 { addr, len } => Asked {
                key: Key {
                    high: 0,
                    low: u64::from(addr),
                },
                width: 32,
                len,
            },
            Range::Ipv6 { addr, len } => Asked {
                key: addr,
                width: 128,
                len,
            },
        }
    }
}

fn is_ipv6_in_ipv4(h: Handle, width: u64) -> bool
    ensures { result ≡ is_ipv6_in_ipv4 h width }
{
    h.version == 4 && width == 128
}

fn lacks_subtree(h: Handle, width: u64) -> bool
    ensures { result ≡ lacks_subtree h width }
{
    width == 32 && h.version == 6 && !has_ipv4_subtree(h)
}

fn start_node(h: Handle, width: u64) -> u64
    ensures { result ≡ start_node h width }
{
    if width == 128 { 0 } else { h.start4 }
}

#[tactic(auto, unfolding(crate::specs::Starts::first_of))]
fn first_of(image: &[u8], h: Handle, asked: Asked) -> First
    requires image_value { fits_of h (length image.now) ≡ true }
    requires len_le_width { (asked.len ≤ asked.width) × (asked.width ≤ 128) }
    ensures { result ≡ first_of image.now h asked }
{
    let width = asked.width;
    if lacks_subtree(h, width) {
        return First {
            place: Place {
                value: h.start4,
                key: Key { high: 0, low: 0 },
                len: h.depth4,
            },
            width: 128,
        };
    }
    let key = masked(asked.key, width, asked.len);
    let node = start_node(h, width);
    let end = descend(image, h.size, h.nodes, node, key, width, asked.len);
    First {
        place: Place {
            value: end.node,
            key,
            len: end.depth,
        },
        width,
    }
}

pub fn no_place() -> Place
    ensures { result ≡ none }
{
    Place {
        value: 0,
        key: Key { high: 0, low: 0 },
        len: 0,
    }
}

fn walk_from(place: Place, width: u64, options: Options) -> Walk
    ensures { result ≡ walk_from place width options }
{
    let mut places = [no_place(); 129];
    places[0] = place;
    Walk {
        places,
        count: 1,
        width,
        options,
    }
}

fn refused_start(refusal: Refusal) -> Started
    ensures { result ≡ refused_start refusal }
{
    Started {
        status: Err(refusal),
        walk: Walk {
            places: [no_place(); 129],
            count: 0,
            width: 32,
            options: Options {
                aliased: false,
                dataless: false,
                skipempty: false,
            },
        },
    }
}

#[tactic(auto, unfolding(crate::specs::Starts::begin_of))]
pub fn begin(image: &[u8], h: Handle, range: Range, options: Options) -> Started
    ensures { result ≡ begin_of image.now h range options }
{
    if !fits(h, image.len() as u64) {
        return refused_start(Refusal::Handle);
    }
    let asked = Asked::from(range);
    let width = asked.width;
    if width < asked.len {
        return refused_start(Refusal::PrefixLength);
    }
    if is_ipv6_in_ipv4(h, width) {
        return refused_start(Refusal::Ipv6InIpv4);
    }
    let first = first_of(image, h, asked);
    Started {
        status: Ok(()),
        walk: walk_from(first.place, first.width, options),
    }
}
