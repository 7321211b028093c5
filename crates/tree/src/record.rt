// The records of a node.
ghost use Rattle.std.specs.Prelude.{◌≡◌, ◌+◌, ◌*◌, ◌-◌, ◌^◌, ◌≤◌, ◌<◌, length};
ghost use Rattle.number.specs.Bytes.{be_at};
ghost use Rattle.tree.specs.Record.{record_at, Readable};

// The four bytes from o on as one number, in one load: by `number::be` a walk takes a fifth longer.
fn word(s: &[u8], o: usize) -> u64
    requires { o + 4 ≤ length s.now }
    ensures { (result ≡ be_at s.now o 4) × (result < 2 ^ 32) }
{
    u64::from(s[o]) * 16777216
        + u64::from(s[o + 1]) * 65536
        + u64::from(s[o + 2]) * 256
        + u64::from(s[o + 3])
}

// A node's first four bytes for bit 0, its last four for bit 1: they hold the whole record at each size. The bit's part is
// taken first: it waits for no record, so that a way down waits for less at each level.
fn window(s: &[u8], node: u64, bytes: u64, bit: u64) -> u64
    requires { (4 ≤ bytes) × ((node + 1) * bytes ≤ length s.now) × (bit < 2) }
    ensures { (result ≡ be_at s.now (node * bytes + bit * (bytes - 4)) 4) × (result < 2 ^ 32) }
{
    let side = &s[(bit * (bytes - 4)) as usize..];
    word(side, (node * bytes) as usize)
}

// A record of a node. Shifts by a variable keep the window one load; at size 28 the mask takes the left record's nibble
// above its bytes, and nothing for the right one, whose nibble stands there already.
pub fn read_node(s: &[u8], size: u64, node: u64, bit: u64) -> u64
    requires { Readable (length s.now) size node bit }
    ensures { result ≡ record_at s.now size node bit }
{
    if size == 24 {
        let w = window(s, node, 6, bit);
        return (w >> (8 - bit * 8)) % 16777216;
    }
    if size == 28 {
        let w = window(s, node, 7, bit);
        return (w & (240 - bit * 240)) * 1048576 + (w >> (8 - bit * 8)) % 268435456;
    }
    window(s, node, 8, bit)
}
