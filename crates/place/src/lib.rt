// One place of a walk: whether it is in shape, its children, and what taking it comes to.
#![tactic(auto)]

ghost use Rattle.std.specs.Prelude.{◌≡◌, ◌≤◌, ◌<◌, length};
ghost use Rattle.tree.specs.Record.{Readable};
ghost use Rattle.place.specs.Kinds.{is_ipv4_in_ipv6, has_ipv4_subtree, is_alias, is_skipped, in_ipv4_subtree, kind_of};
ghost use Rattle.place.specs.Shape.{frame_out, key_out, newest_out};
ghost use Rattle.place.specs.Turns.{child_key, child_of, network_of, unless_empty, turn_of};

use handle::Handle;
use number::{Key, masked, set_bit};
use refusal::Refusal;
use tree::lookup::answer;
use tree::record::read_node;
use value::is_empty_value_at;

// A place that waits: a record's value, a key and a length. The key is the range's with the bits set that led here.
#[derive(Clone, Copy)]
pub struct Place {
    pub value: u64,
    pub key: Key,
    pub len: u64,
}

// Include aliased networks; include networks without data; skip empty values: three choices, none with a value beside it.
#[derive(Clone, Copy)]
pub struct Options {
    pub aliased: bool,
    pub dataless: bool,
    pub skipempty: bool,
}

// With the numbers that a row of many networks tells.
#[derive(Clone, Copy, PartialEq, Eq)]
pub enum NetworkKind {
    V4 = 1,
    V6 = 2,
    V4InV6Subtree = 3,
}

// A network, and where its data stand in the data section, if it has any.
#[derive(Clone, Copy)]
pub struct Network {
    pub key: Key,
    pub len: u64,
    pub kind: NetworkKind,
    pub offset: Option<u64>,
}

// What a walk's call hands out. 11, 12 and 14 fail one place, which is gone, and the walk goes on after it; 9 and 13 refuse
// the walk as it stands. No `Result`: a pause and the end are neither a network nor a refusal.
#[derive(Clone, Copy)]
pub enum Outcome {
    Given(Network),
    Failed(Refusal),
    Refused(Refusal),
    Paused,
    End,
}

// What taking a place comes to: nothing, something handed out, or two children.
#[derive(Clone, Copy)]
pub enum Turn {
    Passed,
    Out(Outcome),
    Opened,
}

// What a whole walk goes by: the numbers of its image, its options, and the width of its addresses.
#[derive(Clone, Copy)]
pub struct Terms {
    pub handle: Handle,
    pub options: Options,
    pub width: u64,
}

pub fn is_ipv4_in_ipv6(key: Key) -> bool
    ensures { result ≡ is_ipv4_in_ipv6 key }
{
    key.high == 0 && key.low <= 4294967295
}

pub fn has_ipv4_subtree(h: Handle) -> bool
    ensures { result ≡ has_ipv4_subtree h }
{
    h.version == 6 && h.start4 < h.nodes
}

fn in_ipv4_subtree(h: Handle, p: Place) -> bool
    ensures { result ≡ in_ipv4_subtree h p }
{
    is_ipv4_in_ipv6(p.key) && has_ipv4_subtree(h) && h.depth4 <= p.len
}

pub fn frame_out(count: u64, width: u64) -> bool
    ensures { result ≡ frame_out count width }
{
    129 < count || (width != 32 && width != 128)
}

fn key_out(width: u64, key: Key) -> bool
    ensures { result ≡ key_out width key }
{
    width == 32 && !is_ipv4_in_ipv6(key)
}

#[tactic(auto, unfolding(crate::specs::Shape::newest_out))]
pub fn newest_out(nodes: u64, count: u64, width: u64, p: Place) -> bool
    ensures { result ≡ newest_out nodes count width p }
{
    width < p.len || key_out(width, p.key) || (p.value < nodes && p.len < width && count == 129)
}

#[tactic(auto, unfolding(crate::specs::Turns::child_key))]
fn child_key(key: Key, width: u64, len: u64, bit: u64) -> Key
    requires { (len < width) × (width ≤ 128) }
    ensures { result ≡ child_key key width len bit }
{
    if bit == 0 {
        key
    } else {
        set_bit(key, width, len)
    }
}

pub fn child(s: &[u8], size: u64, width: u64, p: Place, bit: u64) -> Place
    requires readable { Readable (length s.now) size p.value bit }
    requires len_lt_width { (p.len < width) × (width ≤ 128) }
    ensures { result ≡ child_of s.now size width p bit }
{
    Place {
        value: read_node(s, size, p.value, bit),
        key: child_key(p.key, width, p.len, bit),
        len: p.len + 1,
    }
}

fn unless_empty(empty: Result<bool, Refusal>, network: Network) -> Turn
    ensures { result ≡ unless_empty empty network }
{
    match empty {
        Ok(true) => Turn::Passed,
        Ok(false) => Turn::Out(Outcome::Given(network)),
        Err(refusal) => Turn::Out(Outcome::Failed(refusal)),
    }
}

impl Terms {
    #[tactic(auto, unfolding(crate::specs::Kinds::is_alias))]
    fn is_alias(&self, p: Place) -> bool
        ensures { result ≡ is_alias self.now.handle self.now.width p }
    {
        let h = self.handle;
        h.start4 != 0 && p.value == h.start4 && self.width == 128 && !is_ipv4_in_ipv6(p.key)
    }

    fn is_skipped(&self, p: Place) -> bool
        ensures { result ≡ is_skipped self.now.handle self.now.options self.now.width p }
    {
        !self.options.aliased && self.is_alias(p)
    }

    #[tactic(auto, unfolding(crate::specs::Kinds::kind_of))]
    fn network_kind(&self, p: Place) -> NetworkKind
        ensures { result ≡ kind_of self.now.handle self.now.width p }
    {
        if self.width == 32 {
            if self.handle.version == 6 && !has_ipv4_subtree(self.handle) {
                NetworkKind::V6
            } else {
                NetworkKind::V4
            }
        } else if in_ipv4_subtree(self.handle, p) {
            NetworkKind::V4InV6Subtree
        } else {
            NetworkKind::V6
        }
    }

    fn network_of(&self, p: Place, offset: Option<u64>) -> Network
        requires { (p.len ≤ self.now.width) × (self.now.width ≤ 128) }
        ensures { result ≡ network_of self.now.handle self.now.width p offset }
    {
        Network {
            key: masked(p.key, self.width, p.len),
            len: p.len,
            kind: self.network_kind(p),
            offset,
        }
    }

    // What taking a place comes to, over the data section.
    #[tactic(auto, unfolding(crate::specs::Turns::turn_of))]
    pub fn visit(&self, section: &[u8], p: Place) -> Turn
        requires { (p.len ≤ self.now.width) × (self.now.width ≤ 128) }
        ensures { result ≡ turn_of section.now self.now.handle self.now.options self.now.width p }
    {
        if self.is_skipped(p) {
            return Turn::Passed;
        }
        let nodes = self.handle.nodes;
        if p.value < nodes {
            if p.len < self.width {
                return Turn::Opened;
            }
            return Turn::Out(Outcome::Failed(Refusal::TooDeep));
        }
        let Some(found) = answer(nodes, section.len() as u64, p.value, p.len) else {
            return Turn::Out(Outcome::Failed(Refusal::Record));
        };
        // No guards on the arms: a walk of all networks took a fifth more time with them.
        match found.offset {
            Some(offset) => {
                let network = self.network_of(p, Some(offset));
                if self.options.skipempty {
                    unless_empty(is_empty_value_at(section, offset as usize), network)
                } else {
                    Turn::Out(Outcome::Given(network))
                }
            }
            None => {
                if self.options.dataless {
                    Turn::Out(Outcome::Given(self.network_of(p, None)))
                } else {
                    Turn::Passed
                }
            }
        }
    }
}
