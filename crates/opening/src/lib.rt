// Opening an image, and its age.
#![tactic(auto)]

ghost use Rattle.std.specs.Prelude.{◌≡◌, ◌+◌, ◌*◌, ◌/◌, ◌≤◌, ◌<◌, leb, pos, ◌-ℤ◌, length};
ghost use Rattle.tree.specs.Record.{Sized};
ghost use Rattle.tree.specs.Lookup.{Tree};
ghost use Rattle.opening.specs.Opening.{last_time, ipv4_of, reader_of, checked, open_of, age_of};

use handle::{Handle, IMAGE_BOUND, size_known, version_known};
use metadata::{Metadata, deserialize};
use refusal::Refusal;
use tree::Place;
use tree::lookup::find_ipv4_start;
use tree::marker::find_marker;

const LAST_TIME: u64 = 9223372036854775807;

// An opened image: the numbers that its other functions take, and its metadata.
#[derive(Clone, Copy)]
pub struct Reader {
    pub handle: Handle,
    pub metadata: Metadata,
}

// Divided and not multiplied, so that no product can overflow.
fn tree_fits(nodes: u64, bytes: u64, marker: u64) -> bool
    requires { 0 < bytes }
    ensures { result ≡ leb (nodes * bytes + 16) marker }
{
    16 <= marker && nodes <= (marker - 16) / bytes
}

fn ipv4_start(image: &[u8], m: Metadata) -> Place
    requires { Tree (length image.now) m.size m.nodes }
    ensures { result ≡ ipv4_of image.now m }
{
    if m.version == 6 {
        find_ipv4_start(image, m.size, m.nodes)
    } else {
        Place { node: 0, depth: 0 }
    }
}

fn reader_of(image: &[u8], marker: usize, m: Metadata) -> Reader
    requires { (Sized m.size) × (m.nodes * (m.size / 4) + 16 ≤ marker) × (marker + 14 ≤ length image.now) }
    ensures { result ≡ reader_of image.now marker m }
{
    let start = ipv4_start(image, m);
    Reader {
        handle: Handle {
            version: m.version,
            nodes: m.nodes,
            size: m.size,
            base: m.nodes * (m.size / 4) + 16,
            meta: (marker + 14) as u64,
            start4: start.node,
            depth4: start.depth,
        },
        metadata: m,
    }
}

fn validate(image: &[u8], marker: usize, m: Metadata) -> Result<Reader, Refusal>
    requires { marker + 14 ≤ length image.now }
    ensures { result ≡ checked image.now marker m }
{
    if m.major != 2 {
        return Err(Refusal::FormatVersion);
    }
    if !version_known(m.version) {
        return Err(Refusal::IpVersion);
    }
    if m.nodes == 0 {
        return Err(Refusal::NoNodes);
    }
    if m.build > LAST_TIME {
        return Err(Refusal::BuildTime);
    }
    if !size_known(m.size) {
        return Err(Refusal::RecordSize);
    }
    if !tree_fits(m.nodes, m.size / 4, marker as u64) {
        return Err(Refusal::TreeTooLong);
    }
    Ok(reader_of(image, marker, m))
}

#[tactic(auto, unfolding(crate::specs::Opening::open_of))]
pub fn open(image: &[u8]) -> Result<Reader, Refusal>
    ensures { result ≡ open_of image.now }
{
    if (image.len() as u64) > IMAGE_BOUND {
        return Err(Refusal::ImageTooLong);
    }
    let marker = find_marker(image).ok_or(Refusal::NoMarker)?;
    let m = deserialize(&image[marker + 14..]).ok_or(Refusal::Metadata)?;
    validate(image, marker, m)
}

fn difference(time: u64, build: u64) -> i64
    requires { (time ≤ last_time) × (build ≤ last_time) }
    ensures { result ≡ pos time -ℤ pos build }
{
    (time as i64) - (build as i64)
}

// How long ago an image was built, at a time in seconds since 1970: below zero for a time before that.
#[tactic(auto, unfolding(crate::specs::Opening::age_of))]
pub fn age(image: &[u8], time: u64) -> Result<i64, Refusal>
    ensures { result ≡ age_of image.now time }
{
    let reader = open(image)?;
    if time > LAST_TIME {
        return Err(Refusal::Time);
    }
    Ok(difference(time, reader.metadata.build))
}
