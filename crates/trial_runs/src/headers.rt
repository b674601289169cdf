// The header's reader and its writer, refusals 1 and 2. That the reader answers the version too, and
// that there are two of them, is document 02's request 10.
use crate::judge::{Accepted, File};
use crate::sample::file;
use crate::{judge, sample};
use answers::{LogFile, Refusal};
use std::io;

fn answer_of_reader(
    rt: &impl Print,
    lent: &[u8],
    expected: Result<LogFile, Refusal>,
) -> io::Result<()> {
    let answered = header::read_header(lent);
    let document = match answered {
        Ok(_) => "request 10",
        Err(_) => "document 01",
    };
    judge::answer(rt, answered.map(File), expected.map(File), document)
}

pub fn read(rt: &impl Print, lent: &[u8], expected: Result<LogFile, Refusal>) -> io::Result<()> {
    print!(rt; "  read header, bytes {}", lent.len())?;
    answer_of_reader(rt, lent, expected)
}

// The writer, and by which document it has to answer this.
pub fn write_by(
    rt: &impl Print,
    lent: &mut [u8],
    file: LogFile,
    expected: Result<(), Refusal>,
    document: &str,
) -> io::Result<()> {
    judge::written(
        rt,
        lent,
        |lent| {
            header::write_header(lent, file)?;
            Ok(Accepted)
        },
        expected.map(|()| Accepted),
        document,
    )
}

pub fn write(rt: &impl Print, lent: &mut [u8], expected: Result<(), Refusal>) -> io::Result<()> {
    print!(rt; "  write header, bytes {}", lent.len())?;
    write_by(rt, lent, sample::FILE, expected, "document 01")
}

// A header in which one byte is changed.
fn changed(
    rt: &impl Print,
    at: usize,
    byte: u8,
    expected: Result<LogFile, Refusal>,
) -> io::Result<()> {
    print!(rt; "  read header, byte {at} set to {byte}")?;
    let mut lent = [0x55u8; 4096];
    let _ = header::write_header(&mut lent, sample::FILE);
    sample::change(&mut lent, at, byte);
    answer_of_reader(rt, &lent, expected)
}

// The first bytes of a header and of a byte behind it.
fn starts(rt: &impl Print, lent: &[u8; 4097]) -> io::Result<()> {
    read(rt, &lent[..0], Err(Refusal::HeaderTooShort))?;
    read(rt, &lent[..4095], Err(Refusal::HeaderTooShort))?;
    read(rt, &lent[..4096], Ok(file(1, 7)))?;
    read(rt, lent, Ok(file(1, 7)))
}

fn lengths(rt: &impl Print) -> io::Result<()> {
    println!(rt; "header")?;
    let mut lent = [0x55u8; 4097];
    let _ = header::write_header(&mut lent, sample::FILE);
    starts(rt, &lent)
}

// The first and the last byte of the signature; the version, which is 0x00000101 with byte 9 set; and
// what no reader checks: "A reader checks only length, signature and version". The ordinal is
// 2^56 + 7 with byte 23 set.
fn fields(rt: &impl Print) -> io::Result<()> {
    println!(rt; "header, bytes 0 to 7 the signature, 8 to 11 the version, 16 to 23 the ordinal")?;
    changed(rt, 0, 0x4d, Err(Refusal::WrongHeader))?;
    changed(rt, 7, 0x30, Err(Refusal::WrongHeader))?;
    changed(rt, 8, 0, Err(Refusal::WrongHeader))?;
    changed(rt, 8, 2, Ok(file(2, 7)))?;
    changed(rt, 8, 3, Err(Refusal::WrongHeader))?;
    changed(rt, 9, 1, Err(Refusal::WrongHeader))?;
    changed(rt, 11, 1, Err(Refusal::WrongHeader))?;
    changed(rt, 12, 1, Ok(file(1, 7)))?;
    changed(rt, 4095, 1, Ok(file(1, 7)))?;
    changed(rt, 23, 1, Ok(file(1, 72057594037927943)))
}

// "The writer fills the first 4,096 lent bytes and touches no more."
fn writer(rt: &impl Print) -> io::Result<()> {
    write(rt, &mut [0x55u8; 4095], Err(Refusal::HeaderTooShort))?;
    write(rt, &mut [0x55u8; 4096], Ok(()))?;
    let mut longer = [0x55u8; 4097];
    write(rt, &mut longer, Ok(()))?;
    print!(rt; "  the byte behind the header is as found")?;
    judge::holds(rt, longer[4096] == 0x55, "document 01")
}

pub fn trials(rt: &impl Print) -> io::Result<()> {
    lengths(rt)?;
    fields(rt)?;
    writer(rt)
}
