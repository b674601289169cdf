// Replays the recorded answers of the original (oracle/README.md, "The recorded answers") against the
// proved operations. Reads the file from standard input, and writes a line for each part of a record
// that differs, a line for each operation, how many of its records were replayed and how many agreed,
// and as the last line the verdict.
#![tactic(auto)]

mod calls;
mod judge;
mod operation;
mod reader;
mod said;
mod states;

use calls::Runs;
use judge::Judge;
use operation::{OPERATIONS, Operation};
use reader::{Fault, Malformed, Reader};
use std::{fmt, io};
use tracker::Tracker;

// The recorded file has to stay below this.
const LARGEST_FILE: usize = 360000;

// What ends a replay early: a fault in the file, or a line that can't be written.
#[derive(Drop)]
pub enum Failure {
    Malformed(Malformed),
    Output(io::Error),
}

impl From<Malformed> for Failure {
    fn from(malformed: Malformed) -> Failure {
        Failure::Malformed(malformed)
    }
}

impl From<io::Error> for Failure {
    fn from(error: io::Error) -> Failure {
        Failure::Output(error)
    }
}

// ---- the records

// How many records were replayed, and how many of them agreed.
#[derive(Clone, Copy)]
struct Tally {
    replayed: u64,
    agreed: u64,
}

impl Tally {
    const NONE: Tally = Tally {
        replayed: 0,
        agreed: 0,
    };

    fn count(&mut self, agreed: bool) {
        self.replayed = self.replayed.saturating_add(1);
        self.agreed = self.agreed.saturating_add(u64::from(agreed));
    }
}

impl fmt::Display for Tally {
    fn fmt<W: fmt::Write>(&self, f: &mut fmt::Formatter<W>) -> fmt::Result {
        let replayed = self.replayed;
        let agreed = self.agreed;
        write!(f, "{replayed} {agreed}")
    }
}

// The tally of each operation, in the order of OPERATIONS, and of all. A record that can't be read
// counts nowhere.
#[derive(Clone, Copy)]
struct Tallies {
    each: [Tally; 22],
    all: Tally,
}

impl Tallies {
    fn count(&mut self, operation: Operation, agreed: bool) {
        for (other, tally) in OPERATIONS.iter().zip(self.each.iter_mut()) {
            if *other == operation {
                tally.count(agreed);
            }
        }
        self.all.count(agreed);
    }
}

fn replay_record(
    rt: &HostRuntime,
    file: &mut Reader<'_>,
    index: u32,
    state: &mut Tracker,
    runs: &mut Runs,
    tallies: &mut Tallies,
) -> Result<(), Failure> {
    let start = file.place();
    let [number] = file.array::<1>()?;
    let operation = Operation::try_from(number).map_err(|fault| fault.at(start))?;
    let mut judge = Judge::new(rt, index, operation);
    match operation {
        Operation::StateSet => states::set(&mut judge, file, state)?,
        Operation::StateCheck => states::check(&mut judge, file, state)?,
        Operation::Call(call) => calls::replay(&mut judge, file, call, state, runs)?,
    }
    tallies.count(operation, judge.agreed);
    Ok(())
}

fn replay_records(
    rt: &HostRuntime,
    file: &mut Reader<'_>,
    count: u32,
    tallies: &mut Tallies,
) -> Result<(), Failure> {
    let mut state = tracker::fresh();
    let mut runs = Runs::empty();
    for index in 0..count {
        replay_record(rt, file, index, &mut state, &mut runs, tallies)?;
    }
    Ok(())
}

// ---- what is written

fn write_table(rt: &HostRuntime, tallies: &Tallies) -> io::Result<()> {
    for (operation, tally) in OPERATIONS.iter().zip(tallies.each.iter()) {
        println!(rt; "{operation:16} {tally}")?;
    }
    let all = tallies.all;
    println!(rt; "{:16} {all}", "all")
}

// The last line where the file isn't what it should be. Records are counted from 0.
fn write_malformed(rt: &HostRuntime, record: u64, malformed: Malformed) -> io::Result<()> {
    println!(rt; "malformed: record {record}, {malformed}")
}

fn write_verdict(rt: &HostRuntime, all: Tally) -> io::Result<()> {
    if all.replayed == all.agreed {
        println!(rt; "every recorded answer is given")
    } else {
        println!(rt; "NOT every recorded answer is given")
    }
}

// ---- the file

// The signature, and how many records there are.
fn read_head(file: &mut Reader<'_>) -> Result<u32, Malformed> {
    let start = file.place();
    let head = file.array::<12>()?;
    if !head.starts_with(b"LOCKREC1") {
        return Err(Fault::WrongSignature.at(start));
    }
    let [.., a, b, c, d] = head;
    Ok(u32::from_le_bytes([a, b, c, d]))
}

fn read_end(file: &mut Reader<'_>) -> Result<(), Malformed> {
    let start = file.place();
    let [mark] = file.array::<1>()?;
    if mark != 0 {
        return Err(Fault::NoEndMark.at(start));
    }
    if !file.is_at_end() {
        return Err(Fault::BytesAfterEnd.at(file.place()));
    }
    Ok(())
}

fn replay_file(rt: &HostRuntime, bytes: &[u8]) -> io::Result<()> {
    let mut file = Reader::new(bytes);
    let count = match read_head(&mut file) {
        Ok(count) => count,
        Err(malformed) => return write_malformed(rt, 0, malformed),
    };
    let mut tallies = Tallies {
        each: [Tally::NONE; 22],
        all: Tally::NONE,
    };
    let end = match replay_records(rt, &mut file, count, &mut tallies) {
        Ok(()) => read_end(&mut file),
        Err(Failure::Malformed(malformed)) => Err(malformed),
        Err(Failure::Output(error)) => return Err(error),
    };
    write_table(rt, &tallies)?;
    match end {
        Ok(()) => write_verdict(rt, tallies.all),
        Err(malformed) => write_malformed(rt, tallies.all.replayed, malformed),
    }
}

// A file that fills the room may go on, so it isn't replayed. One that can't be read to its end is
// truncated.
fn replay_input(rt: &HostRuntime, room: &mut [u8]) -> io::Result<()> {
    let n = card::read_full(&mut rt.stdin(), room);
    if n == room.len() {
        return write_malformed(rt, 0, Fault::FileTooLong.at(n));
    }
    replay_file(rt, &room[..n])
}

// Nothing here allocates, so the room is an array.
fn main(rt: HostRuntime) -> io::Result<()> {
    let mut room = [0u8; LARGEST_FILE];
    replay_input(&rt, &mut room)
}
