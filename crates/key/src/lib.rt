// The keys of maps: texts, behind at most one pointer, compared byte by byte and not looked into.
#![tactic(auto)]

ghost use Rattle.std.specs.Prelude.{◌≡◌, ◌+◌, ◌≤◌, length, take, drop};
ghost use Rattle.key.specs.Keys.{same_bytes, name_at};

use control::Kind;
use stored::resolved;

// Where a key's bytes lie, and where its value begins.
#[derive(Clone, Copy)]
pub struct Name {
    pub from: usize,
    pub size: usize,
    pub next: usize,
}

#[tactic(auto, unfolding(crate::specs::Keys::name_at))]
pub fn read_str_as_bytes(s: &[u8], at: usize) -> Option<Name>
    ensures { result ≡ name_at s.now at }
{
    let l = resolved(s, at)?;
    if l.kind != Kind::Text {
        return None;
    }
    Some(Name {
        from: l.payload,
        size: l.size,
        next: l.next,
    })
}

#[tactic(auto, using(crate::proofs::KeyLaws::same_compared))]
pub fn same(x: &[u8], y: &[u8]) -> bool
    ensures { result ≡ same_bytes x.now y.now }
{
    x == y
}

// Whether the bytes of a key are these.
pub fn is_key(s: &[u8], from: usize, size: usize, key: &[u8]) -> bool
    requires { from + size ≤ length s.now }
    ensures { result ≡ same_bytes (take size (drop from s.now)) key.now }
{
    same(&s[from..from + size], key)
}
