// The end of a trial's line: what was answered, and whether a document says so. What was asked is
// written before it, from the very arguments of the call.
use answers::{LogFile, Refusal, Stopped};
use card::Kind;
use entry::Entry;
use std::{fmt, io};

// A file, as its header tells it.
#[derive(Clone, Copy, PartialEq, Eq)]
pub struct File(pub LogFile);

impl fmt::Display for File {
    fn fmt<W: fmt::Write>(&self, f: &mut fmt::Formatter<W>) -> fmt::Result {
        write!(f, "version {}, ordinal {}", self.0.version, self.0.ordinal)
    }
}

// An entry, and all that an answer tells of it.
#[derive(Clone, Copy, PartialEq, Eq)]
pub struct Listed(pub Entry);

impl fmt::Display for Listed {
    fn fmt<W: fmt::Write>(&self, f: &mut fmt::Formatter<W>) -> fmt::Result {
        let e = self.0;
        write!(f, "{} at {}, ns {}", Kind(e.kind), e.offset, e.ns)?;
        write!(f, ", value {} at {}", e.vlen, e.vplace)?;
        write!(f, ", key {} at {}, end {}", e.klen, e.kplace, e.end)
    }
}

// What a walk finds.
#[derive(Clone, Copy, PartialEq, Eq)]
pub struct Found<T>(pub Option<T>);

impl<T: fmt::Display> fmt::Display for Found<T> {
    fn fmt<W: fmt::Write>(&self, f: &mut fmt::Formatter<W>) -> fmt::Result {
        match &self.0 {
            Some(found) => write!(f, "{found}"),
            None => f.write_str("End"),
        }
    }
}

// What the header's writer answers where nothing refuses it.
#[derive(Clone, Copy, PartialEq, Eq)]
pub struct Accepted;

impl fmt::Display for Accepted {
    fn fmt<W: fmt::Write>(&self, f: &mut fmt::Formatter<W>) -> fmt::Result {
        f.write_str("accepted")
    }
}

// A refusal of an operation that writes.
#[derive(Clone, Copy, PartialEq, Eq)]
enum Refused {
    AsFound(Refusal),
    // The lent bytes did not stay as found: no trial expects it.
    Changed(Refusal),
}

impl fmt::Display for Refused {
    fn fmt<W: fmt::Write>(&self, f: &mut fmt::Formatter<W>) -> fmt::Result {
        match self {
            Refused::AsFound(refusal) => write!(f, "{refusal}"),
            Refused::Changed(refusal) => write!(f, "bytes changed, and {refusal}"),
        }
    }
}

// What an operation answers, or what refuses it.
#[derive(PartialEq, Drop)]
struct Outcome<A, E>(Result<A, E>);

impl<A: fmt::Display, E: fmt::Display> fmt::Display for Outcome<A, E> {
    fn fmt<W: fmt::Write>(&self, f: &mut fmt::Formatter<W>) -> fmt::Result {
        match &self.0 {
            Ok(answer) => write!(f, "{answer}"),
            Err(refusal) => write!(f, "{refusal}"),
        }
    }
}

// What an operation may be refused with. A place may stand beside the case.
pub trait Refuses {
    fn case(&self) -> Refusal;
}

impl Refuses for Refusal {
    fn case(&self) -> Refusal {
        *self
    }
}

impl Refuses for Stopped {
    fn case(&self) -> Refusal {
        match self {
            Stopped::Refused(refusal) => *refusal,
            Stopped::UnknownAt(_) => Refusal::UnknownType,
        }
    }
}

impl Refuses for Refused {
    fn case(&self) -> Refusal {
        match self {
            Refused::AsFound(refusal) => *refusal,
            Refused::Changed(refusal) => *refusal,
        }
    }
}

// Document 01, "Answer numbers". A trial names a case, and its line is written by `Refusal::number`:
// that number has to be this one.
fn number_of(case: Refusal) -> u32 {
    match case {
        Refusal::HeaderTooShort => 1,
        Refusal::WrongHeader => 2,
        Refusal::RegionTooLarge => 3,
        Refusal::BoundPastRegion => 4,
        Refusal::NotOnLine => 5,
        Refusal::EntryTooShort => 6,
        Refusal::WrongMark => 7,
        Refusal::WrongChecksum => 8,
        Refusal::TypeNotAllowed => 9,
        Refusal::UnknownType => 10,
        Refusal::KeyTooLong => 11,
        Refusal::ValueTooLong => 12,
        Refusal::NoSpace => 13,
        Refusal::ShardTooLarge => 14,
        Refusal::NoWaitingRoom => 15,
        Refusal::NumbersUsedUp => 16,
        Refusal::NamespaceTooLarge => 17,
        Refusal::TooManyOrdinals => 18,
        Refusal::EqualOrdinals => 22,
        Refusal::NotSound => 28,
    }
}

// What was told, and by which document it has to be that.
pub fn told<A: fmt::Display + PartialEq + Drop>(
    rt: &impl Print,
    answered: A,
    expected: A,
    document: &str,
) -> io::Result<()> {
    if answered == expected {
        println!(rt; ": {answered}, as {document}")
    } else {
        println!(rt; ": {answered}, WRONG: {expected}")
    }
}

// The same of an operation that may be refused: the number of the case has to be document 01's.
pub fn told_by<A: fmt::Display + PartialEq + Drop>(
    rt: &impl Print,
    answered: A,
    case: Option<Refusal>,
    expected: A,
    document: &str,
) -> io::Result<()> {
    match case {
        Some(case) if case.number() != number_of(case) => {
            println!(rt; ": {answered}, WRONG: refused {}", number_of(case))
        }
        _ => told(rt, answered, expected, document),
    }
}

// The same of an operation's answer.
pub fn answer<A: fmt::Display + PartialEq + Drop, E: fmt::Display + PartialEq + Refuses + Drop>(
    rt: &impl Print,
    answered: Result<A, E>,
    expected: Result<A, E>,
    document: &str,
) -> io::Result<()> {
    let case = match &answered {
        Ok(_) => None,
        Err(refused) => Some(refused.case()),
    };
    told_by(rt, Outcome(answered), case, Outcome(expected), document)
}

// The same of an operation that writes: a refusal has to leave the lent bytes as found.
pub fn written<A: fmt::Display + PartialEq + Drop, F: FnOnce(&mut [u8]) -> Result<A, Refusal>>(
    rt: &impl Print,
    lent: &mut [u8],
    write: F,
    expected: Result<A, Refusal>,
    document: &str,
) -> io::Result<()>
    requires { F.IsAlwaysCallable write }
{
    let before = checksum::hash(lent);
    let answered = match write(lent) {
        Ok(answer) => Ok(answer),
        Err(refusal) if before == checksum::hash(lent) => Err(Refused::AsFound(refusal)),
        Err(refusal) => Err(Refused::Changed(refusal)),
    };
    answer(rt, answered, expected.map_err(Refused::AsFound), document)
}

// A question whose answer is to be yes.
pub fn holds(rt: &impl Print, is_so: bool, document: &str) -> io::Result<()> {
    told(rt, if is_so { "yes" } else { "no" }, "yes", document)
}

// The bytes of a key or a value, which are text here.
pub fn bytes(rt: &impl Print, answered: &[u8], expected: &[u8]) -> io::Result<()> {
    print!(rt; ": \"")?;
    rt.write_all(answered)?;
    if answered == expected {
        println!(rt; "\", as document 01")
    } else {
        print!(rt; "\", WRONG: \"")?;
        rt.write_all(expected)?;
        println!(rt; "\"")
    }
}
