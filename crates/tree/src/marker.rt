// The metadata marker.
ghost use Rattle.std.specs.Prelude.{◌≡◌, ◌+◌, ◌≤◌, IfSome, length};
ghost use Rattle.tree.specs.Marker.{agree, marker_of};

const METADATA_START_MARKER: [u8; 14] = *b"\xab\xcd\xefMaxMind.com";

// Whether the marker stands whole from `at` on. Most places are left at its first byte.
fn stands(s: &[u8], at: usize) -> bool
    requires { at + 14 ≤ length s.now }
    ensures { result ≡ agree s.now at 14 }
{
    for k in 0..14 {
        if s[at + k] != METADATA_START_MARKER[k] {
            return false;
        }
    }
    true
}

// The last place at which the marker stands whole. Not by windows of the image: comparing each with the marker takes half as
// long again, and twice as long where the marker's first bytes stand at many places.
pub fn find_marker(s: &[u8]) -> Option<usize>
    ensures last { result ≡ marker_of s.now }
    ensures inside { IfSome result (λ at. at + 14 ≤ length s.now) }
{
    for at in (0..s.len().saturating_sub(13)).rev() {
        if stands(s, at) {
            return Some(at);
        }
    }
    None
}
