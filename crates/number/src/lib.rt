// Numbers in bytes, highest byte first, and keys of 128 bits in two halves.
#![tactic(auto)]

ghost use Rattle.std.specs.Prelude.{◌≡◌, ◌+◌, ◌*◌, ◌^◌, ◌≤◌, ◌<◌, leb, length};
ghost use Rattle.number.specs.Bytes.{be_at};
ghost use Rattle.number.specs.Keys.{number_of, key_of, bit_from_top, with_bit, masked_to};

// An address or a key of a network: a number below 2^128.
#[derive(Clone, Copy)]
pub struct Key {
    pub high: u64,
    pub low: u64,
}

// Whether `k` more fit where `a` of `max` are taken; no sum that could wrap is made.
pub fn room(a: usize, k: usize, max: usize) -> bool
    ensures { result ≡ leb (a + k) max }
{
    a.checked_add(k).is_some_and(|end| end <= max)
}

// The number that `n` bytes from `p` on spell.
pub fn be(s: &[u8], p: usize, n: usize) -> u64
    requires { (n ≤ 8) × (p + n ≤ length s.now) }
    ensures { (result ≡ be_at s.now p n) × (result < 2 ^ (8 * n)) }
{
    s[p..p + n].iter().fold(0, |v, &b| (v << 8) | u64::from(b))
}

// The bit of an address at `index`, counted from the top of its width.
#[tactic(auto, using(crate::proofs::KeyLaws::keys))]
pub fn get_bit(key: Key, width: u64, index: u64) -> u64
    requires { (index < width) × (width ≤ 128) }
    ensures { result ≡ bit_from_top (number_of key) width index }
{
    let k = width - 1 - index;
    if k < 64 {
        (key.low >> k) % 2
    } else {
        (key.high >> (k - 64)) % 2
    }
}

// The address with the bit at `index` set.
#[tactic(auto, using(crate::proofs::KeyLaws::keys))]
pub fn set_bit(key: Key, width: u64, index: u64) -> Key
    requires { (index < width) × (width ≤ 128) }
    ensures { result ≡ key_of (with_bit (number_of key) width index) }
{
    let k = width - 1 - index;
    if k < 64 {
        Key {
            high: key.high,
            low: key.low | (1 << k),
        }
    } else {
        Key {
            high: key.high | (1 << (k - 64)),
            low: key.low,
        }
    }
}

// The address with its host bits, those past `len`, cleared.
#[tactic(auto, using(crate::proofs::KeyLaws::keys))]
pub fn masked(key: Key, width: u64, len: u64) -> Key
    requires { (len ≤ width) × (width ≤ 128) }
    ensures { result ≡ key_of (masked_to (number_of key) width len) }
{
    let host = width - len;
    match host {
        0..=63 => Key {
            high: key.high,
            low: (key.low >> host) << host,
        },
        64..=127 => Key {
            high: (key.high >> (host - 64)) << (host - 64),
            low: 0,
        },
        _ => Key { high: 0, low: 0 },
    }
}
