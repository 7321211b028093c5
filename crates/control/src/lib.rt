// Control bytes of a section: kind, size, pointers. A section is a slice; places count from its start.
#![tactic(auto)]

ghost use Rattle.std.specs.Prelude.{◌≡◌, ◌≤◌, ◌<◌, ◌^◌};
ghost use Rattle.control.specs.Control.{kind_of, counted_at, size_at, sized_at, head_at};
ghost use Rattle.control.specs.Pointers.{link_at, on_target, behind_at};

use number::{be, room};

// The kinds of values, by the type numbers; Unknown is every number that stands for none.
#[derive(Clone, Copy, PartialEq, Eq)]
pub enum Kind {
    Pointer,
    Text,
    Double,
    Bytes,
    U16,
    U32,
    Map,
    I32,
    U64,
    U128,
    Array,
    Boolean,
    Float,
    Unknown,
}

impl From<usize> for Kind {
    ghost from_gives = { λ number kind. kind ≡ kind_of number };

    #[tactic(auto, unfolding(crate::specs::Control::kind_of))]
    fn from(number: usize) -> Kind {
        match number {
            1 => Kind::Pointer,
            2 => Kind::Text,
            3 => Kind::Double,
            4 => Kind::Bytes,
            5 => Kind::U16,
            6 => Kind::U32,
            7 => Kind::Map,
            8 => Kind::I32,
            9 => Kind::U64,
            10 => Kind::U128,
            11 => Kind::Array,
            14 => Kind::Boolean,
            15 => Kind::Float,
            _ => Kind::Unknown,
        }
    }
}

// What a control byte says: the kind, the size, and where the payload begins.
// A pointer has no size: its control byte's low five bits stand there.
#[derive(Clone, Copy)]
pub struct Head {
    pub kind: Kind,
    pub size: usize,
    pub payload: usize,
}

// Where a pointer leads, and where what follows the pointer begins.
#[derive(Clone, Copy)]
pub struct Link {
    pub target: usize,
    pub next: usize,
}

// A number of `n` bytes from `p` on, which counts from `base`, and where what follows it begins.
fn counted(s: &[u8], base: usize, n: usize, p: usize) -> Option<(usize, usize)>
    requires { (n ≤ 4) × (base < 2 ^ 32) }
    ensures { result ≡ counted_at s.now base n p }
{
    if room(p, n, s.len()) {
        Some((base + (be(s, p, n) as usize), p + n))
    } else {
        None
    }
}

#[tactic(auto, unfolding(crate::specs::Control::size_at))]
fn size_from_code(s: &[u8], kind: Kind, code: usize, p: usize) -> Option<Head>
    ensures { result ≡ size_at s.now kind code p }
{
    let (size, payload) = match code {
        0..=28 => (code, p),
        29 => counted(s, 29, 1, p)?,
        30 => counted(s, 285, 2, p)?,
        31 => counted(s, 65821, 3, p)?,
        _ => return None,
    };
    Some(Head {
        kind,
        size,
        payload,
    })
}

// A pointer's code is no size: it takes no size bytes, also where it is 29, 30 or 31.
#[tactic(auto, unfolding(crate::specs::Control::sized_at))]
fn sized(s: &[u8], kind: Kind, code: usize, p: usize) -> Option<Head>
    ensures { result ≡ sized_at s.now kind code p }
{
    match kind {
        Kind::Pointer => Some(Head {
            kind,
            size: code,
            payload: p,
        }),
        _ => size_from_code(s, kind, code, p),
    }
}

#[tactic(auto, unfolding(crate::specs::Control::head_at))]
pub fn size_and_type(s: &[u8], at: usize) -> Option<Head>
    ensures { result ≡ head_at s.now at }
{
    let b = usize::from(*s.get(at)?);
    if b / 32 == 0 {
        let extended = usize::from(*s.get(at + 1)?);
        sized(s, Kind::from(extended + 7), b % 32, at + 2)
    } else {
        sized(s, Kind::from(b / 32), b % 32, at + 1)
    }
}

// The pointer whose control byte's low five bits are `code` and whose payload begins at `p`.
#[tactic(auto, unfolding(crate::specs::Pointers::link_at))]
pub fn decode_pointer(s: &[u8], code: usize, p: usize) -> Option<Link>
    ensures { result ≡ link_at s.now code p }
{
    let (target, next) = match code / 8 % 4 {
        0 => counted(s, code % 8 * 256, 1, p),
        1 => counted(s, 2048 + code % 8 * 65536, 2, p),
        2 => counted(s, 526336 + code % 8 * 16777216, 3, p),
        _ => counted(s, 0, 4, p),
    }?;
    Some(Link { target, next })
}

// What a pointer leads to is no pointer again.
fn at_target(s: &[u8], target: usize) -> Option<Head>
    ensures { result ≡ on_target (head_at s.now target) }
{
    size_and_type(s, target).filter(|head| head.kind != Kind::Pointer)
}

// Kind and size of what a place leads to, behind at most one pointer.
#[tactic(auto, unfolding(crate::specs::Pointers::behind_at))]
pub fn behind(s: &[u8], at: usize) -> Option<Head>
    ensures { result ≡ behind_at s.now at }
{
    let head = size_and_type(s, at)?;
    if head.kind == Kind::Pointer {
        let link = decode_pointer(s, head.size, head.payload)?;
        at_target(s, link.target)
    } else {
        Some(head)
    }
}
