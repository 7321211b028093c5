// The answer of a lookup in an image that a handle fits.
#![tactic(auto)]

ghost use Rattle.std.specs.Prelude.{◌≡◌, true, length};
ghost use Rattle.handle.specs.Handle.{fits_of};
ghost use Rattle.lookup.specs.Lookup.{Fitting, asked_of, found_from};

use handle::Handle;
use number::Key;
use refusal::Refusal;
use tree::Found;
use tree::lookup::{answer, descend};

#[derive(Clone, Copy)]
pub enum Address {
    V4(u32),
    V6(u64, u64),
}

// The way that an address takes: from which record, at which depth, by how many bits of which key.
#[derive(Clone, Copy)]
pub struct Way {
    pub start: u64,
    pub depth: u64,
    pub width: u64,
    pub key: Key,
}

// An IPv4 address goes on from the IPv4 start, which in an IPv4 image is the root.
#[tactic(auto, unfolding(crate::specs::Lookup::asked_of))]
pub fn way_of(h: Handle, address: Address) -> Result<Way, Refusal>
    ensures { result ≡ asked_of h address }
{
    match address {
        Address::V4(low) => Ok(Way {
            start: h.start4,
            depth: h.depth4,
            width: 32,
            key: Key {
                high: 0,
                low: u64::from(low),
            },
        }),
        Address::V6(_, _) if h.version == 4 => Err(Refusal::Ipv6InIpv4),
        Address::V6(high, low) => Ok(Way {
            start: 0,
            depth: 0,
            width: 128,
            key: Key { high, low },
        }),
    }
}

pub fn find(image: &[u8], h: Handle, w: Way) -> Result<Found, Refusal>
    requires image_value { fits_of h (length image.now) ≡ true }
    requires fitting { Fitting w }
    ensures { result ≡ found_from image.now h w }
{
    let p = descend(image, h.size, h.nodes, w.start, w.key, w.width, w.width);
    let found = answer(h.nodes, h.meta - 14 - h.base, p.node, w.depth + p.depth);
    found.ok_or(Refusal::Record)
}
