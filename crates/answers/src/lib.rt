// The answers as structs of numbers, in the layout of C: include/ermopinaw.h says what each number means.
#![tactic(auto)]

ghost use Rattle.std.specs.Prelude.{◌≡◌};
ghost use Rattle.refusal.specs.Refusals.{number_of};
ghost use Rattle.answers.specs.Answers.{opened_of, aged_of, found_of, unsigned_of, valued_of, nowhere_of, stepped_of, status_of, network_of, without_of, called_of, halted_of, scratch_of, verified_of};

use charge::Charge;
use handle::Handle;
use opening::Reader;
use path::Cursor;
use place::{Network, Outcome};
use refusal::Refusal;
use tree::Found;
use value::Value;
use walk::rows::{Halt, kind_number, offset_word};

// In place of an offset, of a lookup alone.
pub const REFUSED: u64 = 18446744073709551614;

// Answers that are no refusal, past the refusals' numbers.
pub const ABSENT: u64 = 256;

pub const PAUSED: u64 = 257;

pub const END: u64 = 258;

#[repr(C)]
#[derive(Clone, Copy)]
pub struct ErmOpened {
    pub status: u64,
    pub handle: Handle,
    pub major: u64,
    pub minor: u64,
    pub build: u64,
    pub languages: u64,
    pub descriptions: u64,
}

#[repr(C)]
#[derive(Clone, Copy)]
pub struct ErmAged {
    pub status: u64,
    pub seconds: i64,
}

#[repr(C)]
#[derive(Clone, Copy)]
pub struct ErmFound {
    pub offset: u64,
    pub second: u64,
}

#[repr(C)]
#[derive(Clone, Copy)]
pub struct ErmValue {
    pub kind: u64,
    pub high: u64,
    pub low: u64,
    pub integer: i32,
}

#[repr(C)]
#[derive(Clone, Copy)]
pub struct ErmStepped {
    pub status: u64,
    pub cursor: Cursor,
}

#[repr(C)]
#[derive(Clone, Copy)]
pub struct ErmNetwork {
    pub high: u64,
    pub low: u64,
    pub length: u64,
    pub kind: u64,
    pub offset: u64,
}

#[repr(C)]
#[derive(Clone, Copy)]
pub struct ErmCalled {
    pub status: u64,
    pub taken: u64,
    pub network: ErmNetwork,
}

#[repr(C)]
#[derive(Clone, Copy)]
pub struct ErmScratch {
    pub status: u64,
    pub words: u64,
}

#[repr(C)]
#[derive(Clone, Copy)]
pub struct ErmVerified {
    pub status: u64,
    pub offsets: u64,
}

// The status of a refusal: its number.
fn word(refusal: Refusal) -> u64
    ensures { result ≡ number_of refusal }
{
    u64::from(refusal.number())
}

impl From<Result<Reader, Refusal>> for ErmOpened {
    ghost from_gives = { λ opened r. r ≡ opened_of opened };

    fn from(opened: Result<Reader, Refusal>) -> ErmOpened {
        match opened {
            Ok(Reader { handle, metadata }) => ErmOpened {
                status: 0,
                handle,
                major: metadata.major,
                minor: metadata.minor,
                build: metadata.build,
                languages: metadata.languages.size as u64,
                descriptions: metadata.description.size as u64,
            },
            Err(refusal) => ErmOpened {
                status: word(refusal),
                handle: Handle {
                    version: 0,
                    nodes: 0,
                    size: 0,
                    base: 0,
                    meta: 0,
                    start4: 0,
                    depth4: 0,
                },
                major: 0,
                minor: 0,
                build: 0,
                languages: 0,
                descriptions: 0,
            },
        }
    }
}

impl From<Result<i64, Refusal>> for ErmAged {
    ghost from_gives = { λ aged r. r ≡ aged_of aged };

    fn from(aged: Result<i64, Refusal>) -> ErmAged {
        match aged {
            Ok(seconds) => ErmAged { status: 0, seconds },
            Err(refusal) => ErmAged {
                status: word(refusal),
                seconds: 0,
            },
        }
    }
}

impl From<Result<Found, Refusal>> for ErmFound {
    ghost from_gives = { λ found r. r ≡ found_of found };

    fn from(found: Result<Found, Refusal>) -> ErmFound {
        match found {
            Ok(Found { offset, len }) => ErmFound {
                offset: offset_word(offset),
                second: len,
            },
            Err(refusal) => ErmFound {
                offset: REFUSED,
                second: word(refusal),
            },
        }
    }
}

// A value that is no i32: its kind and its two halves.
fn unsigned(kind: u64, high: u64, low: u64) -> ErmValue
    ensures { result ≡ unsigned_of kind high low }
{
    ErmValue {
        kind,
        high,
        low,
        integer: 0,
    }
}

impl From<Result<Value, Refusal>> for ErmValue {
    ghost from_gives = { λ value r. r ≡ valued_of value };

    fn from(value: Result<Value, Refusal>) -> ErmValue {
        match value {
            Ok(Value::Map(n)) => unsigned(7, 0, n as u64),
            Ok(Value::Array(n)) => unsigned(11, 0, n as u64),
            Ok(Value::Text(n)) => unsigned(2, 0, n as u64),
            Ok(Value::Bytes(n)) => unsigned(4, 0, n as u64),
            Ok(Value::U16(n)) => unsigned(5, 0, u64::from(n)),
            Ok(Value::U32(n)) => unsigned(6, 0, u64::from(n)),
            Ok(Value::U64(n)) => unsigned(9, 0, n),
            Ok(Value::U128(high, low)) => unsigned(10, high, low),
            Ok(Value::I32(integer)) => ErmValue {
                kind: 8,
                high: 0,
                low: 0,
                integer,
            },
            Ok(Value::Boolean(b)) => unsigned(14, 0, u64::from(b)),
            Ok(Value::Double(_, bits)) => unsigned(3, 0, bits),
            Ok(Value::Float(_, bits)) => unsigned(15, 0, u64::from(bits)),
            Err(refusal) => unsigned(0, 0, word(refusal)),
        }
    }
}

fn nowhere(status: u64) -> ErmStepped
    ensures { result ≡ nowhere_of status }
{
    ErmStepped {
        status,
        cursor: Cursor {
            place: 0,
            charge: Charge {
                values: 0,
                payload: 0,
            },
        },
    }
}

impl From<Result<Option<Cursor>, Refusal>> for ErmStepped {
    ghost from_gives = { λ step r. r ≡ stepped_of step };

    fn from(step: Result<Option<Cursor>, Refusal>) -> ErmStepped {
        match step {
            Ok(Some(cursor)) => ErmStepped { status: 0, cursor },
            Ok(None) => nowhere(ABSENT),
            Err(refusal) => nowhere(word(refusal)),
        }
    }
}

// A status alone is a number, which takes no `From` of a crate's own.
pub fn status(s: Result<(), Refusal>) -> u64
    ensures { result ≡ status_of s }
{
    match s {
        Ok(()) => 0,
        Err(refusal) => word(refusal),
    }
}

impl From<Network> for ErmNetwork {
    ghost from_gives = { λ network r. r ≡ network_of network };

    fn from(network: Network) -> ErmNetwork {
        ErmNetwork {
            high: network.key.high,
            low: network.key.low,
            length: network.len,
            kind: kind_number(network.kind),
            offset: offset_word(network.offset),
        }
    }
}

fn without(status: u64, taken: u64) -> ErmCalled
    ensures { result ≡ without_of status taken }
{
    ErmCalled {
        status,
        taken,
        network: ErmNetwork {
            high: 0,
            low: 0,
            length: 0,
            kind: 0,
            offset: 0,
        },
    }
}

// What a walk's call answered, and how many places it took.
impl From<(Outcome, u64)> for ErmCalled {
    ghost from_gives = { λ call r. r ≡ called_of call.0 call.1 };

    fn from((answer, taken): (Outcome, u64)) -> ErmCalled {
        match answer {
            Outcome::Given(network) => ErmCalled {
                status: 0,
                taken,
                network: ErmNetwork::from(network),
            },
            Outcome::Failed(refusal) | Outcome::Refused(refusal) => without(word(refusal), taken),
            Outcome::Paused => without(PAUSED, taken),
            Outcome::End => without(END, taken),
        }
    }
}

// Likewise a number: 0 where there was no room for a further row.
pub fn halted(halt: Halt) -> u64
    ensures { result ≡ halted_of halt }
{
    match halt {
        Halt::Full => 0,
        Halt::Failed(refusal) | Halt::Refused(refusal) => word(refusal),
        Halt::Paused => PAUSED,
        Halt::End => END,
    }
}

impl From<Result<u64, Refusal>> for ErmScratch {
    ghost from_gives = { λ words r. r ≡ scratch_of words };

    fn from(words: Result<u64, Refusal>) -> ErmScratch {
        match words {
            Ok(words) => ErmScratch { status: 0, words },
            Err(refusal) => ErmScratch {
                status: word(refusal),
                words: 0,
            },
        }
    }
}

impl From<Result<u64, Refusal>> for ErmVerified {
    ghost from_gives = { λ verdict r. r ≡ verified_of verdict };

    fn from(verdict: Result<u64, Refusal>) -> ErmVerified {
        match verdict {
            Ok(offsets) => ErmVerified { status: 0, offsets },
            Err(refusal) => ErmVerified {
                status: word(refusal),
                offsets: 0,
            },
        }
    }
}
