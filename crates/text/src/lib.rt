#![tactic(auto)]

ghost use Rattle.std.specs.Prelude.{◌≡◌};
ghost use Rattle.text.specs.Utf8.{first, after, well_formed, ascii};

// What may come next: so many more bytes of this character, and the next byte from lo to hi.
#[derive(Clone, Copy)]
struct Next {
    need: u8,
    lo: u8,
    hi: u8,
}

// What the first byte of a character asks for: table 3-7 of the Unicode standard, row by row.
fn first(b: u8) -> Option<Next>
    ensures { result ≡ first b }
{
    let (need, lo, hi) = match b {
        0x00..=0x7f => (0, 0x80, 0xbf),
        0xc2..=0xdf => (1, 0x80, 0xbf),
        0xe0 => (2, 0xa0, 0xbf),
        0xe1..=0xec => (2, 0x80, 0xbf),
        0xed => (2, 0x80, 0x9f),
        0xee..=0xef => (2, 0x80, 0xbf),
        0xf0 => (3, 0x90, 0xbf),
        0xf1..=0xf3 => (3, 0x80, 0xbf),
        0xf4 => (3, 0x80, 0x8f),
        _ => return None,
    };
    Some(Next { need, lo, hi })
}

impl Next {
    // A byte, where this was asked for.
    fn after(self, b: u8) -> Option<Next>
        ensures { result ≡ after self.need self.lo self.hi b }
    {
        if self.need == 0 {
            first(b)
        } else if (self.lo..=self.hi).contains(&b) {
            Some(Next {
                need: self.need - 1,
                lo: 0x80,
                hi: 0xbf,
            })
        } else {
            None
        }
    }
}

#[tactic(auto, using(crate::proofs::Laws::ascii_below, crate::proofs::Laws::ascii_not), unfolding(crate::specs::Utf8::ascii))]
fn ascii(s: &[u8]) -> bool
    ensures { result ≡ ascii s.now }
{
    s.is_ascii()
}

// Whether the bytes are well-formed UTF-8. Most texts are ASCII, and for those the quick test is enough.
// Not from_utf8 for the rest: the must-fail edits overlong, surrogate and past_last change rows of the table above.
#[tactic(auto, using(crate::proofs::Laws::ascii_well_formed))]
pub fn utf8(s: &[u8]) -> bool
    ensures { result ≡ well_formed s.now }
{
    if ascii(s) {
        return true;
    }
    let mut next = Next {
        need: 0,
        lo: 0x80,
        hi: 0xbf,
    };
    for &b in s {
        let Some(following) = next.after(b) else {
            return false;
        };
        next = following;
    }
    next.need == 0
}
