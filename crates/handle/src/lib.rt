// The numbers of an opened image, and when they fit an image.
#![tactic(auto)]

ghost use Rattle.std.specs.Prelude.{◌≡◌, true};
ghost use Rattle.handle.specs.Handle.{version_known, size_known, numbers_known, sections_fit, ipv4_fits, fits_of};

// The longest image that is read.
pub const IMAGE_BOUND: u64 = 2147483647;

// IP version, node count, record size, data start, metadata start, and where IPv4 addresses start: record and depth. Its
// words are those of C's `erm_handle`, so the version and the size stay numbers.
#[repr(C)]
#[derive(Clone, Copy)]
pub struct Handle {
    pub version: u64,
    pub nodes: u64,
    pub size: u64,
    pub base: u64,
    pub meta: u64,
    pub start4: u64,
    pub depth4: u64,
}

pub fn version_known(version: u64) -> bool
    ensures { result ≡ version_known version }
{
    matches!(version, 4 | 6)
}

pub fn size_known(size: u64) -> bool
    ensures { result ≡ size_known size }
{
    matches!(size, 24 | 28 | 32)
}

fn numbers_known(h: Handle) -> bool
    ensures { result ≡ numbers_known h }
{
    version_known(h.version) && 1 <= h.nodes && h.nodes <= 4294967295 && size_known(h.size)
}

fn sections_fit(h: Handle, n: u64) -> bool
    requires { numbers_known h ≡ true }
    ensures { result ≡ sections_fit h n }
{
    h.base == h.nodes * h.size / 4 + 16 && h.base + 14 <= h.meta && h.meta <= n
}

fn ipv4_fits(h: Handle) -> bool
    ensures { result ≡ ipv4_fits h }
{
    h.depth4 <= 96 && h.start4 <= 4294967295 && (h.version != 4 || (h.start4 == 0 && h.depth4 == 0))
}

// Whether the handle fits an image of n bytes.
#[tactic(auto, unfolding(crate::specs::Handle::fits_of))]
pub fn fits(h: Handle, n: u64) -> bool
    ensures { result ≡ fits_of h n }
{
    n <= IMAGE_BOUND && numbers_known(h) && sections_fit(h, n) && ipv4_fits(h)
}
