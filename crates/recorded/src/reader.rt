// Reading the recorded file. Any bytes can stand in it, so whatever reads a part of it answers that
// part or a fault.
ghost use Rattle.std.specs.Prelude.{◌≡◌, ◌≤◌, length, IfOk};

use std::fmt;

// The recorder's own limit on a run.
pub const LONGEST_RUN: usize = 70000;

// What is wrong with a recorded file.
#[derive(Clone, Copy, Debug, PartialEq, Eq)]
pub enum Fault {
    FileTooLong,
    WrongSignature,
    Truncated,
    EndsEarly,
    UnknownOperation,
    RunTooLong,
    PieceOutside,
    HalfOrdinal,
    DeltaTooLarge,
    ShardTooLarge,
    QueueTooLong,
    NoEndMark,
    BytesAfterEnd,
    NoGrid,
}

impl fmt::Display for Fault {
    fn fmt<W: fmt::Write>(&self, f: &mut fmt::Formatter<W>) -> fmt::Result {
        let words = match self {
            Fault::FileTooLong => "the file has 360,000 bytes or more",
            Fault::WrongSignature => "the file doesn't begin with LOCKREC1",
            Fault::Truncated => "the file ends within this part",
            Fault::EndsEarly => "the end mark comes before all records",
            Fault::UnknownOperation => "the operation is unknown",
            Fault::RunTooLong => "a run has more than 70,000 bytes",
            Fault::PieceOutside => "a piece lies outside its run",
            Fault::HalfOrdinal => "an ordinal has fewer than 8 bytes",
            Fault::DeltaTooLarge => "a delta is out of range",
            Fault::ShardTooLarge => "a shard is out of range",
            Fault::QueueTooLong => "more than 32 deltas wait on a shard",
            Fault::NoEndMark => "the end mark is missing",
            Fault::BytesAfterEnd => "bytes follow the end mark",
            Fault::NoGrid => "a grid hasn't 768 bytes",
        };
        f.pad(words)
    }
}

impl Fault {
    pub fn at(self, place: usize) -> Malformed {
        Malformed { fault: self, place }
    }
}

// A fault, and the place in the file of the part that has it.
#[derive(Clone, Copy, Debug, PartialEq, Eq)]
pub struct Malformed {
    pub fault: Fault,
    pub place: usize,
}

impl fmt::Display for Malformed {
    fn fmt<W: fmt::Write>(&self, f: &mut fmt::Formatter<W>) -> fmt::Result {
        let place = self.place;
        let fault = self.fault;
        write!(f, "byte {place}: {fault:37}")
    }
}

// A run of bytes, at the start of a room for the longest one. Nothing here allocates, so the room is
// an array, and the run's length stands beside it. A room is large, so each is made once and lent to
// one record after the other; behind the run it has any bytes.
#[derive(Clone, Copy)]
pub struct Run {
    room: [u8; LONGEST_RUN],
    length: usize,
}

impl Run {
    pub fn empty() -> Run {
        Run {
            room: [0; LONGEST_RUN],
            length: 0,
        }
    }

    pub fn clear(&mut self) {
        self.length = 0;
    }

    // Makes it the same run as another.
    pub fn copy(&mut self, other: &Run) {
        let length = other.length.min(LONGEST_RUN);
        let room = &mut self.room[..];
        room[..length].copy_from_slice(&other.room[..length]);
        self.length = length;
    }

    pub fn bytes(&self) -> &[u8] {
        &self.room[..self.length.min(LONGEST_RUN)]
    }

    pub fn bytes_mut(&mut self) -> &mut [u8] {
        let length = self.length.min(LONGEST_RUN);
        &mut self.room[..length]
    }
}

// A recorded file, read up to a place.
#[derive(Clone, Copy)]
pub struct Reader<'a> {
    file: &'a [u8],
    place: usize,
    ghost inside: { place ≤ length file.now },
}

impl<'a> Reader<'a> {
    pub fn new(file: &'a [u8]) -> Reader<'a> {
        Reader { file, place: 0 }
    }

    pub fn place(&self) -> usize {
        self.place
    }

    pub fn is_at_end(&self) -> bool {
        self.place == self.file.len()
    }

    // The next so many bytes.
    pub fn take(&mut self, count: usize) -> Result<&'a [u8], Malformed>
        ensures { IfOk result (λ taken. length taken.now ≡ count) }
    {
        let file = self.file;
        let start = self.place;
        if file.len() - start < count {
            return Err(Fault::Truncated.at(start));
        }
        let end = start + count;
        self.place = end;
        Ok(&file[start..end])
    }

    // The next N bytes; of those std makes a number of any width.
    pub fn array<const N: usize>(&mut self) -> Result<[u8; N], Malformed> {
        let mut bytes = [0; N];
        bytes.copy_from_slice(self.take(N)?);
        Ok(bytes)
    }

    // The numbers of a call, of 8 bytes each. Behind the last one there are zeros.
    pub fn numbers(&mut self, count: u8) -> Result<[u64; 6], Malformed> {
        let (taken, _) = self.take(8 * usize::from(count))?.as_chunks();
        let mut numbers = [0; 6];
        for (number, bytes) in numbers.iter_mut().zip(taken) {
            *number = u64::from_le_bytes(*bytes);
        }
        Ok(numbers)
    }

    // Puts the next piece over a run.
    fn piece(&mut self, run: &mut [u8]) -> Result<(), Malformed> {
        let start = self.place;
        let from = u32::from_le_bytes(self.array()?) as usize;
        let count = u16::from_le_bytes(self.array()?) as usize;
        let piece = self.take(count)?;
        let Some(part) = run.get_mut(from..from + count) else {
            return Err(Fault::PieceOutside.at(start));
        };
        part.copy_from_slice(piece);
        Ok(())
    }

    // Puts the next pieces over a run: their count comes first.
    pub fn pieces(&mut self, run: &mut [u8]) -> Result<(), Malformed> {
        let count = u16::from_le_bytes(self.array()?);
        for _ in 0..count {
            self.piece(run)?;
        }
        Ok(())
    }

    // Puts the next run in the place of one: its length comes first, then the pieces, which go over
    // zeros.
    pub fn run(&mut self, run: &mut Run) -> Result<(), Malformed> {
        let length = u32::from_le_bytes(self.array()?) as usize;
        if LONGEST_RUN < length {
            return Err(Fault::RunTooLong.at(self.place));
        }
        run.length = length;
        let bytes = run.bytes_mut();
        bytes.fill(0);
        self.pieces(bytes)
    }
}
