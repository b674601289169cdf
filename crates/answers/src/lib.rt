// Document 01, "Answer numbers": the refusals of the locker log, by name. Code elsewhere names a
// case and never a bare number; a later request adds its own case here, with one line in
// specs/Numbers.antt and one in `number` below.
#![tactic(auto)]

ghost use Rattle.std.specs.Prelude.{◌≡◌};
ghost use Rattle.answers.specs.Numbers.{number_of, number_of_stopped, number_of_verdict};
ghost use Rattle.answers.specs.Versions.{VersionRead};
ghost use Rattle.answers.specs.declared.Stopped.TheVariants.{Refused};

use std::error::Error;
use std::fmt;

// The limits that refusals speak of.
pub const LARGEST_REGION: usize = 268435456;

pub const LARGEST_KEY: usize = 4096;

pub const LARGEST_VALUE: usize = 32768;

pub const LAST_NAMESPACE: u64 = 63;

// The versions of a file, as numbers.
pub const VERSION_1: u64 = 1;

pub const VERSION_2: u64 = 2;

#[derive(Clone, Copy, Debug, PartialEq, Eq)]
pub enum Refusal {
    // 1: header shorter than 4,096
    HeaderTooShort,
    // 2: wrong signature, or neither version
    WrongHeader,
    // 3: region or configured maximum over 268,435,456
    RegionTooLarge,
    // 4: bound over N
    BoundPastRegion,
    // 5: place, used count or length not a multiple of 16, or reserved length 0
    NotOnLine,
    // 6: entry too short
    EntryTooShort,
    // 7: wrong mark
    WrongMark,
    // 8: wrong checksum
    WrongChecksum,
    // 9: type not allowed here
    TypeNotAllowed,
    // 10: walk meets type 3
    UnknownType,
    // 11: key too long
    KeyTooLong,
    // 12: value too long
    ValueTooLong,
    // 13: sealed, or used count + length over capacity; in replay, aligned size over the
    // configured maximum
    NoSpace,
    // 14: shard over 15
    ShardTooLarge,
    // 15: no waiting room
    NoWaitingRoom,
    // 16: next number is 2^64 - 1
    NumbersUsedUp,
    // 17: namespace over 63
    NamespaceTooLarge,
    // 18: more than 64 ordinals
    TooManyOrdinals,
    // 22: two equal ordinals
    EqualOrdinals,
    // 28: tracker value not sound
    NotSound,
}

// What ends a walk before its end: a refusal, or 10 with the place of the line that has type 3.
#[derive(Clone, Copy, Debug, PartialEq, Eq)]
pub enum Stopped {
    Refused(Refusal),
    UnknownAt(usize),
}

impl From<Refusal> for Stopped {
    ghost from_gives = { λ refusal stopped. stopped ≡ Refused refusal };

    fn from(refusal: Refusal) -> Stopped {
        Self::Refused(refusal)
    }
}

// The versions of a file. A file may have another number there, so each operation that takes one
// converts it first, and any other gets 2 (document 02, request 10).
#[derive(Clone, Copy, Debug, PartialEq, Eq)]
pub enum Version {
    One,
    Two,
}

impl TryFrom<u64> for Version {
    type Error = Refusal;

    ghost try_from_gives = { VersionRead };

    #[tactic(auto, unfolding(crate::specs::Versions::version_refusal, crate::specs::Versions::is_version))]
    fn try_from(number: u64) -> Result<Version, Refusal> {
        match number {
            VERSION_1 => Ok(Version::One),
            VERSION_2 => Ok(Version::Two),
            _ => Err(Refusal::WrongHeader),
        }
    }
}

// What a file's header says and each of its marks depends on. Any two numbers may stand here: every
// operation takes them, and answers 2 where the version is none.
#[derive(Clone, Copy, Debug, PartialEq, Eq)]
pub struct LogFile {
    pub version: u64,
    pub ordinal: u64,
}

impl Refusal {
    // The table's number.
    pub fn number(self) -> u32
        ensures { result ≡ number_of self }
    {
        match self {
            Refusal::HeaderTooShort => 1,
            Refusal::WrongHeader => 2,
            Refusal::RegionTooLarge => 3,
            Refusal::BoundPastRegion => 4,
            Refusal::NotOnLine => 5,
            Refusal::EntryTooShort => 6,
            Refusal::WrongMark => 7,
            Refusal::WrongChecksum => 8,
            Refusal::TypeNotAllowed => 9,
            Refusal::UnknownType => 10,
            Refusal::KeyTooLong => 11,
            Refusal::ValueTooLong => 12,
            Refusal::NoSpace => 13,
            Refusal::ShardTooLarge => 14,
            Refusal::NoWaitingRoom => 15,
            Refusal::NumbersUsedUp => 16,
            Refusal::NamespaceTooLarge => 17,
            Refusal::TooManyOrdinals => 18,
            Refusal::EqualOrdinals => 22,
            Refusal::NotSound => 28,
        }
    }
}

impl Stopped {
    // The table's number; the place of 10 goes beside it.
    pub fn number(self) -> u32
        ensures { result ≡ number_of_stopped self }
    {
        match self {
            Stopped::Refused(refusal) => refusal.number(),
            Stopped::UnknownAt(_) => Refusal::UnknownType.number(),
        }
    }
}

impl fmt::Display for Refusal {
    fn fmt<W: fmt::Write>(&self, f: &mut fmt::Formatter<W>) -> fmt::Result {
        write!(f, "refused {}", self.number())
    }
}

impl fmt::Display for Stopped {
    fn fmt<W: fmt::Write>(&self, f: &mut fmt::Formatter<W>) -> fmt::Result {
        match self {
            Stopped::Refused(refusal) => write!(f, "{refusal}"),
            Stopped::UnknownAt(place) => write!(f, "{} at {place}", Refusal::UnknownType),
        }
    }
}

impl Error for Refusal {}

impl Error for Stopped {}

// 0 for accepted, which is no refusal's number. C has the numbers.
pub fn verdict_number(verdict: Result<(), Refusal>) -> u32
    ensures { result ≡ number_of_verdict verdict }
{
    match verdict {
        Ok(()) => 0,
        Err(refusal) => refusal.number(),
    }
}
