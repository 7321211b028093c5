// The steps of a recorded path, taken one after the other.
use charge::Charge;
use path::{Cursor, step_index, step_key};
use recorded::number_at;
use refusal::Refusal;

// Before its key or its index, which has eight bytes, a step has its kind and how many bytes follow.
const STEP_HEADER: usize = 3;

enum StepKind {
    Key,
    Index,
    FromEnd,
}

impl From<u8> for StepKind {
    fn from(number: u8) -> StepKind {
        match number {
            0 => StepKind::Key,
            2 => StepKind::FromEnd,
            _ => StepKind::Index,
        }
    }
}

fn one_step(
    section: &[u8],
    cursor: Cursor,
    kind: StepKind,
    what: &[u8],
) -> Result<Option<Cursor>, Refusal> {
    let index = number_at(what, 0, 8) as usize;
    match kind {
        StepKind::Key => step_key(section, cursor, what),
        StepKind::Index => step_index(section, cursor, index, false),
        StepKind::FromEnd => step_index(section, cursor, index, true),
    }
}

// Where the steps lead from a place. What a last step lacks is not there.
pub fn arrived(section: &[u8], place: usize, steps: &[u8]) -> Result<Option<Cursor>, Refusal> {
    let charge = Charge {
        values: 0,
        payload: 0,
    };
    let mut cursor = Cursor { place, charge };
    let mut rest = steps;
    while let Some(kind) = rest.first() {
        let (header, after) = rest.split_at(STEP_HEADER.min(rest.len()));
        let size = number_at(header, 1, 2) as usize;
        let (what, after) = after.split_at(size.min(after.len()));
        let Some(next) = one_step(section, cursor, StepKind::from(*kind), what)? else {
            return Ok(None);
        };
        cursor = next;
        rest = after;
    }
    Ok(Some(cursor))
}
