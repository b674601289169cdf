// What programs share: the room for a card from standard input, reading it, whether all of it was
// read, its header and the data region behind it, and the lines of an end and of what stops a program.
// A helper of programs, no part of the locker library.
#![tactic(auto)]

ghost use Rattle.std.specs.Prelude.{◌≡◌, ◌+◌, ◌≤◌, ℕ, List, true, length, IfOk};
ghost use Rattle.std.specs.Borrow.{Bor};
ghost use Rattle.answers.specs.Versions.{is_version};

use answers::{LogFile, Refusal, Stopped};
use header::HEADER_LENGTH;
use std::io::Read;
use std::{fmt, io};

// What stops a program: what stops its work on a log, or a line that can't be written.
#[derive(Debug, Drop)]
pub enum Fault {
    Stopped(Stopped),
    Output(io::Error),
}

impl From<Refusal> for Fault {
    fn from(refusal: Refusal) -> Fault {
        Fault::Stopped(Stopped::from(refusal))
    }
}

impl From<Stopped> for Fault {
    fn from(stopped: Stopped) -> Fault {
        Fault::Stopped(stopped)
    }
}

impl From<io::Error> for Fault {
    fn from(error: io::Error) -> Fault {
        Fault::Output(error)
    }
}

// An entry's type, which is written in words.
#[derive(Clone, Copy)]
pub struct Kind(pub u64);

impl fmt::Display for Kind {
    fn fmt<W: fmt::Write>(&self, f: &mut fmt::Formatter<W>) -> fmt::Result {
        f.write_str(match self.0 {
            entry::INSERT => "insert",
            entry::UPDATE => "update",
            entry::TOMBSTONE => "tombstone",
            _ => "unknown type",
        })
    }
}

// Room for the header's 4,096 bytes and 1,048,576 bytes of data: a mebibyte of the eight that Linux
// gives a program's stack. It stays a fixed room, and how much of it was read goes beside it, because
// the tools keep to fixed memory and a failed read is told from the end as it always was.
pub fn room() -> [u8; 1052672]
    ensures { 1052672 ≡ length result }
{
    [0; 1052672]
}

// The line of an end, or of what stops the walk before it.
pub fn write_end(out: &impl Print, end: Result<usize, Stopped>) -> io::Result<()> {
    match end {
        Ok(n) => println!(out; "end {n}"),
        Err(stopped) => println!(out; "{stopped}"),
    }
}

// Reads until the room is full, the input ends or a read fails, and answers how many bytes it put at
// the room's start. `is_whole` tells a failed read from the end. The loop is a `while`, because it moves
// on by what was read.
pub fn read_full(input: &mut impl Read, room: &mut [u8]) -> usize
    ensures { result ≤ length room.new }
{
    let mut done = 0;
    while done < room.len() {
        match input.read(&mut room[done..]) {
            Ok(n) if 0 < n => done += n,
            _ => return done,
        }
    }
    done
}

// Of a card that was not read to its end the last entries would be missing without a word. Standard
// output has only what is told of whole cards, so this goes to standard error.
fn write_unreadable(err: &impl Print, program: &[u8]) -> io::Result<()> {
    err.write_all(program)?;
    println!(err; ": standard input can't be read")
}

// Whether the n bytes that were read into a room of this size are the whole of standard input, as
// one read more shows. If they aren't, writes why. The program's name stays bytes: a caller may have any.
pub fn is_whole(rt: &HostRuntime, n: usize, size: usize, program: &[u8]) -> io::Result<bool> {
    let mut one = [0u8; 1];
    match rt.stdin().read(&mut one) {
        Ok(0) => return Ok(true),
        // with room left a read failed before, even if this one did not
        Ok(_) if n < size => write_unreadable(&rt.stderr(), program)?,
        Ok(_) => println!(rt; "{}", Refusal::RegionTooLarge)?,
        Err(_) => write_unreadable(&rt.stderr(), program)?,
    }
    Ok(false)
}

// The file that a card's header tells, and the data region behind it. Refusals 1, 2.
pub fn file_and_data(card: &[u8]) -> Result<(LogFile, &[u8]), Refusal>
    ensures { IfOk result (λ told. (is_version told.0.version ≡ true) × (length told.1.now + 4096 ≡ length card.now)) }
{
    let file = header::read_header(card)?;
    Ok((file, &card[HEADER_LENGTH..]))
}

// Ends a program: what stopped its work on a log has a line, and it is nothing that failed.
pub fn finish(out: &impl Print, work: Result<(), Fault>) -> io::Result<()> {
    match work {
        Ok(()) => Ok(()),
        Err(Fault::Stopped(stopped)) => println!(out; "{stopped}"),
        Err(Fault::Output(error)) => Err(error),
    }
}

// Reads a card into the room. If that is the whole of standard input, does the program's work on it.
pub fn on_card<F: FnOnce(&[u8]) -> Result<(), Fault> + Drop>(
    rt: &HostRuntime,
    room: &mut [u8],
    program: &str,
    work: F,
) -> io::Result<()>
    requires { (card : Bor (List ℕ)) → length card.now ≤ length room.old → F.pre work card }
{
    let size = room.len();
    let n = read_full(&mut rt.stdin(), room);
    if is_whole(rt, n, size, program.as_bytes())? {
        finish(rt, work(&room[..n]))?;
    }
    Ok(())
}
