// The way down the tree, and what it ends in.
ghost use Rattle.std.specs.Prelude.{◌≡◌, ◌≤◌, length};
ghost use Rattle.number.specs.Keys.{number_of};
ghost use Rattle.tree.specs.Lookup.{Tree, down, ipv4_start_of, answer_of};

use crate::record::read_node;
use crate::{Found, Place};
use number::{Key, get_bit};

// Goes down from `start` by the first `bits` bits of an address: all of them in a lookup, fewer to a range or the IPv4
// start. Bytes, size and count of the nodes stay three arguments: each caller has them in a `Handle` or a `Metadata`, and
// would build a struct of them for this one call.
pub fn descend(
    s: &[u8],
    size: u64,
    nodes: u64,
    start: u64,
    key: Key,
    width: u64,
    bits: u64,
) -> Place
    requires tree { Tree (length s.now) size nodes }
    requires bits_le_width { (bits ≤ width) × (width ≤ 128) }
    ensures { result ≡ down s.now size nodes (number_of key) width 0 bits start }
{
    let mut node = start;
    for depth in 0..bits {
        if nodes <= node {
            return Place { node, depth };
        }
        node = read_node(s, size, node, get_bit(key, width, depth));
    }
    Place { node, depth: bits }
}

// Where IPv4 addresses start in a tree of IPv6 addresses.
pub fn find_ipv4_start(s: &[u8], size: u64, nodes: u64) -> Place
    requires { Tree (length s.now) size nodes }
    ensures { result ≡ ipv4_start_of s.now size nodes }
{
    descend(s, size, nodes, 0, Key { high: 0, low: 0 }, 128, 96)
}

// What a way ends in at a record, `len` being the length there and `room` that of the data section: nothing at a record
// that gives no offset inside it.
#[tactic(auto, unfolding(crate::specs::Lookup::answer_of))]
pub fn answer(nodes: u64, room: u64, node: u64, len: u64) -> Option<Found>
    ensures { result ≡ answer_of nodes room node len }
{
    if node <= nodes {
        return Some(Found { offset: None, len });
    }
    let offset = (node - nodes).checked_sub(16)?;
    if offset < room {
        Some(Found {
            offset: Some(offset),
            len,
        })
    } else {
        None
    }
}
