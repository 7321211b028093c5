// The metadata, decoded into the fields of `metadata.rs`.
#![tactic(auto)]

ghost use Rattle.std.specs.Prelude.{◌≡◌};
ghost use Rattle.metadata.specs.Names.{field_of};
ghost use Rattle.metadata.specs.Metadata.{key_at, pair_at, whole_of, gather, none_seen, metadata_of};

use charge::{Charge, count_payload, reserve_values};
use control::Kind;
use fields::{Got, decode_direct};
use key::{read_str_as_bytes, same};
use skip::{Past, skip_value};
use stored::resolved;

const MAXIMUM_UNCHARGED_IDENTIFIER_BYTES: usize = 32;

// The kind of each field, in the order of `metadata.rs`.
const WANTED: [Kind; 9] = [
    Kind::U16,
    Kind::U16,
    Kind::U64,
    Kind::Text,
    Kind::Map,
    Kind::U16,
    Kind::Array,
    Kind::U32,
    Kind::U16,
];

// A key of the map: the number of the field that it names, if any, and where its value begins.
#[derive(Clone, Copy)]
pub struct Key {
    pub field: Option<usize>,
    pub next: usize,
    pub charge: Charge,
}

// A field with its value, or a pair of another key, which was passed over.
#[derive(Clone, Copy)]
pub enum Pair {
    Known { field: usize, got: Got },
    Other(Past),
}

// A field: its number, or how many bytes or entries it has, and where its payload begins.
#[derive(Clone, Copy)]
pub struct Field {
    pub value: u64,
    pub place: usize,
}

// Where the bytes or the entries of a field begin in the section, and how many there are.
#[derive(Clone, Copy)]
pub struct Part {
    pub from: usize,
    pub size: usize,
}

impl From<Field> for Part {
    ghost from_gives = { λ field part. part ≡ record { from = field.place; size = field.value } };

    fn from(field: Field) -> Part {
        Part {
            from: field.place,
            size: field.value as usize,
        }
    }
}

// `database` is the text of the database type; a description's size counts its pairs.
#[derive(Clone, Copy)]
pub struct Metadata {
    pub major: u64,
    pub minor: u64,
    pub build: u64,
    pub database: Part,
    pub description: Part,
    pub version: u64,
    pub languages: Part,
    pub nodes: u64,
    pub size: u64,
}

#[tactic(auto, unfolding(crate::specs::Names::field_of, crate::specs::Names::bytes))]
fn field_of(key: &[u8]) -> Option<usize>
    ensures { result ≡ field_of key.now }
{
    if same(key, b"binary_format_major_version") {
        Some(0)
    } else if same(key, b"binary_format_minor_version") {
        Some(1)
    } else if same(key, b"build_epoch") {
        Some(2)
    } else if same(key, b"database_type") {
        Some(3)
    } else if same(key, b"description") {
        Some(4)
    } else if same(key, b"ip_version") {
        Some(5)
    } else if same(key, b"languages") {
        Some(6)
    } else if same(key, b"node_count") {
        Some(7)
    } else if same(key, b"record_size") {
        Some(8)
    } else {
        None
    }
}

#[tactic(auto, using(key::proofs::KeyLaws::name_inside), unfolding(crate::specs::Metadata::key_at))]
fn deserialize_identifier(s: &[u8], at: usize, c: Charge) -> Option<Key>
    ensures { result ≡ key_at s.now at c }
{
    let name = read_str_as_bytes(s, at)?;
    let field = field_of(&s[name.from..name.from + name.size]);
    let charged = name.size.saturating_sub(MAXIMUM_UNCHARGED_IDENTIFIER_BYTES);
    let charge = count_payload(c, charged)?;
    Some(Key {
        field,
        next: name.next,
        charge,
    })
}

#[tactic(auto, using(crate::proofs::MetadataLaws::key_small), unfolding(crate::specs::Metadata::pair_at))]
fn next_pair(s: &[u8], at: usize, c: Charge) -> Option<Pair>
    ensures { result ≡ pair_at s.now at c }
{
    let key = deserialize_identifier(s, at, c)?;
    let Some(field) = key.field else {
        let past = skip_value(s, key.next, key.charge)?;
        return Some(Pair::Other(past));
    };
    let got = decode_direct(s, WANTED[field], key.next, key.charge)?;
    Some(Pair::Known { field, got })
}

#[tactic(auto, using(crate::proofs::MetadataLaws::whole_missing), unfolding(crate::specs::Metadata::whole_of, crate::specs::Metadata::all_seen))]
fn whole(fields: [Option<Field>; 9]) -> Option<Metadata>
    ensures { result ≡ whole_of fields }
{
    let [
        major,
        minor,
        build,
        database,
        description,
        version,
        languages,
        nodes,
        size,
    ] = fields;
    Some(Metadata {
        major: major?.value,
        minor: minor?.value,
        build: build?.value,
        database: Part::from(database?),
        description: Part::from(description?),
        version: version?.value,
        languages: Part::from(languages?),
        nodes: nodes?.value,
        size: size?.value,
    })
}

#[tactic(auto, using(crate::proofs::MetadataLaws::gather_known, crate::proofs::MetadataLaws::gather_twice, crate::proofs::MetadataLaws::gather_other, crate::proofs::MetadataLaws::gather_stop, crate::proofs::MetadataLaws::gather_none, crate::proofs::MetadataLaws::pair_small))]
fn visit_map(s: &[u8], pairs: usize, first: usize, c: Charge) -> Option<Metadata>
    ensures { result ≡ gather (pair_at s.now) pairs first c none_seen }
{
    let mut fields: [Option<Field>; 9] = [None; 9];
    let mut past = Past {
        next: first,
        charge: c,
    };
    for _ in 0..pairs {
        match next_pair(s, past.next, past.charge)? {
            Pair::Known { field, got } => {
                if fields[field].is_some() {
                    return None;
                }
                fields[field] = Some(Field {
                    value: got.value,
                    place: got.place,
                });
                past = Past {
                    next: got.next,
                    charge: got.charge,
                };
            }
            Pair::Other(other) => past = other,
        }
    }
    whole(fields)
}

// The fields of a metadata section.
#[tactic(auto, using(crate::proofs::MetadataLaws::resolved_small), unfolding(crate::specs::Metadata::metadata_of))]
pub fn deserialize(s: &[u8]) -> Option<Metadata>
    ensures { result ≡ metadata_of s.now }
{
    let l = resolved(s, 0)?;
    if l.kind != Kind::Map {
        return None;
    }
    let charge = reserve_values(Charge::default(), l.size * 2)?;
    visit_map(s, l.size, l.payload, charge)
}
