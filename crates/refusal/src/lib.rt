// Why an entry point refuses, and the number that C and the listing are told.
#![tactic(auto)]

ghost use Rattle.std.specs.Prelude.{◌≡◌};
ghost use Rattle.refusal.specs.Refusals.{number_of};

// In the order of the numbers, from 1 on: docs/SCOPE.md, "The refusal numbers".
#[derive(Clone, Copy, PartialEq, Eq)]
pub enum Refusal {
    NoMarker = 1,
    Metadata = 2,
    FormatVersion = 3,
    IpVersion = 4,
    NoNodes = 5,
    BuildTime = 6,
    RecordSize = 7,
    TreeTooLong = 8,
    Handle = 9,
    Ipv6InIpv4 = 10,
    Record = 11,
    TooDeep = 12,
    OutOfShape = 13,
    Malformed = 14,
    Offset = 15,
    PrefixLength = 16,
    NoDatabaseType = 17,
    NoDescription = 18,
    TooManyNetworks = 19,
    Separator = 20,
    Budget = 21,
    Scratch = 22,
    Time = 23,
    ImageTooLong = 24,
}

impl Refusal {
    pub fn number(self) -> u8
        ensures { result ≡ number_of self }
    {
        self as u8
    }
}
