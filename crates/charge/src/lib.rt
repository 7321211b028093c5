// What one operation has charged against the decoder's limits.
#![tactic(auto)]

ghost use Rattle.std.specs.Prelude.{◌≡◌};
ghost use Rattle.charge.specs.Charge.{since_entry, room_left, entered, paid};

pub const MAXIMUM_DATA_STRUCTURE_VALUES: usize = 65536;

pub const MAXIMUM_DATA_STRUCTURE_BYTES: usize = 2097152;

// Values and bytes of text charged so far. No values: no map or array has been entered yet.
#[repr(C)]
#[derive(Clone, Copy, Default)]
pub struct Charge {
    pub values: usize,
    pub payload: usize,
}

// A charge may be forged, so the room left is no plain difference.
fn room_left(used: usize, most: usize) -> usize
    ensures { result ≡ room_left used most }
{
    most.saturating_sub(used)
}

// The map or array that is entered first counts itself.
fn since_entry(values: usize) -> usize
    ensures { result ≡ since_entry values }
{
    values.max(1)
}

// A map or array is entered: its children are charged before any of them is read. None where there is no room for them.
#[tactic(auto, unfolding(crate::specs::Charge::entered))]
pub fn reserve_values(c: Charge, count: usize) -> Option<Charge>
    ensures { result ≡ entered c count }
{
    let values = since_entry(c.values);
    if count <= room_left(values, MAXIMUM_DATA_STRUCTURE_VALUES) {
        Some(Charge {
            values: values + count,
            payload: c.payload,
        })
    } else {
        None
    }
}

// A text or bytes of this size is handed out; nothing is charged before a map or array is entered.
#[tactic(auto, unfolding(crate::specs::Charge::paid))]
pub fn count_payload(c: Charge, size: usize) -> Option<Charge>
    ensures { result ≡ paid c size }
{
    if c.values == 0 {
        return Some(c);
    }
    if size <= room_left(c.payload, MAXIMUM_DATA_STRUCTURE_BYTES) {
        Some(Charge {
            values: c.values,
            payload: c.payload + size,
        })
    } else {
        None
    }
}
