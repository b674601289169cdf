// The operations that records are of, by their numbers and names.
use crate::reader::Fault;
use std::fmt;

#[derive(Clone, Copy, Debug, PartialEq, Eq)]
pub enum Operation {
    StateSet,
    StateCheck,
    Call(Call),
}

// The operations that are calls, with numbers, runs and an answer.
#[derive(Clone, Copy, Debug, PartialEq, Eq)]
pub enum Call {
    Checksum,
    HeaderReader,
    HeaderWriter,
    Read,
    AppendData,
    AppendTombstone,
    Walk,
    UsedBound,
    DurableEnd,
    Reserve,
    Complete,
    Abandon,
    Record,
    Checkpoint,
    Drain,
    Clear,
    ReplayData,
    ReplayTombstone,
    StartFile,
    CountEntries,
}

// In the order of their numbers, from 1 on.
pub const OPERATIONS: [Operation; 22] = [
    Operation::Call(Call::Checksum),
    Operation::Call(Call::HeaderReader),
    Operation::Call(Call::HeaderWriter),
    Operation::Call(Call::Read),
    Operation::Call(Call::AppendData),
    Operation::Call(Call::AppendTombstone),
    Operation::Call(Call::Walk),
    Operation::Call(Call::UsedBound),
    Operation::Call(Call::DurableEnd),
    Operation::StateSet,
    Operation::Call(Call::Reserve),
    Operation::Call(Call::Complete),
    Operation::Call(Call::Abandon),
    Operation::Call(Call::Record),
    Operation::Call(Call::Checkpoint),
    Operation::Call(Call::Drain),
    Operation::Call(Call::Clear),
    Operation::StateCheck,
    Operation::Call(Call::ReplayData),
    Operation::Call(Call::ReplayTombstone),
    Operation::Call(Call::StartFile),
    Operation::Call(Call::CountEntries),
];

impl TryFrom<u8> for Operation {
    type Error = Fault;

    fn try_from(number: u8) -> Result<Operation, Fault> {
        if number == 0 {
            return Err(Fault::EndsEarly);
        }
        OPERATIONS
            .get(usize::from(number) - 1)
            .copied()
            .ok_or(Fault::UnknownOperation)
    }
}

impl fmt::Display for Operation {
    fn fmt<W: fmt::Write>(&self, f: &mut fmt::Formatter<W>) -> fmt::Result {
        let name = match self {
            Operation::StateSet => "state-set",
            Operation::StateCheck => "state-check",
            Operation::Call(call) => call.name(),
        };
        f.pad(name)
    }
}

impl Call {
    fn name(self) -> &'static str {
        match self {
            Call::Checksum => "checksum",
            Call::HeaderReader => "header-reader",
            Call::HeaderWriter => "header-writer",
            Call::Read => "read",
            Call::AppendData => "append-data",
            Call::AppendTombstone => "append-tombstone",
            Call::Walk => "walk",
            Call::UsedBound => "used-bound",
            Call::DurableEnd => "durable-end",
            Call::Reserve => "reserve",
            Call::Complete => "complete",
            Call::Abandon => "abandon",
            Call::Record => "record",
            Call::Checkpoint => "checkpoint",
            Call::Drain => "drain",
            Call::Clear => "clear",
            Call::ReplayData => "replay-data",
            Call::ReplayTombstone => "replay-tombstone",
            Call::StartFile => "start-file",
            Call::CountEntries => "count-entries",
        }
    }

    // How many numbers a call has.
    pub fn numbers(self) -> u8 {
        match self {
            Call::Checksum | Call::HeaderReader | Call::UsedBound | Call::Clear => 0,
            Call::Drain | Call::StartFile => 1,
            Call::HeaderWriter | Call::Abandon | Call::Record | Call::Checkpoint => 2,
            Call::ReplayTombstone | Call::CountEntries => 2,
            Call::DurableEnd | Call::Complete | Call::ReplayData => 3,
            Call::Read | Call::AppendTombstone | Call::Walk => 4,
            Call::AppendData => 5,
            Call::Reserve => 6,
        }
    }

    // Whether a call goes to the tracker.
    pub fn is_on_tracker(self) -> bool {
        match self {
            Call::Reserve | Call::Complete | Call::Abandon | Call::Record => true,
            Call::Checkpoint | Call::Drain | Call::Clear => true,
            _ => false,
        }
    }

    // How many runs a call has: what it is lent or looks at, then keys and values.
    pub fn runs(self) -> usize {
        match self {
            Call::Reserve | Call::Complete | Call::Abandon | Call::Record => 0,
            Call::Checkpoint | Call::Drain | Call::Clear => 0,
            Call::ReplayData | Call::ReplayTombstone => 0,
            Call::Checksum | Call::HeaderReader | Call::HeaderWriter | Call::Read => 1,
            Call::Walk | Call::UsedBound | Call::DurableEnd | Call::StartFile => 1,
            Call::AppendTombstone | Call::CountEntries => 2,
            Call::AppendData => 3,
        }
    }
}
