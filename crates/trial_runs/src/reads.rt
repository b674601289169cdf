// The read at a place: refusals 5, 6, 7, 8 and 9, the data layout whatever the type, and the type
// that it reports, which is the one that was written.
use crate::judge::Listed;
use crate::{judge, sample};
use answers::Refusal;
use entry::Entry;
use std::io;

// A read, and by which document it has to answer this.
fn read_by(
    rt: &impl Print,
    region: &[u8],
    p: usize,
    hint: usize,
    expected: Result<Entry, Refusal>,
    document: &str,
) -> io::Result<()> {
    print!(rt; "  read of {} bytes, place {p}, hint {hint}", region.len())?;
    let answered = read::read_at(region, sample::FILE, p, hint);
    judge::answer(rt, answered.map(Listed), expected.map(Listed), document)
}

pub fn read(
    rt: &impl Print,
    region: &[u8],
    p: usize,
    hint: usize,
    expected: Result<Entry, Refusal>,
) -> io::Result<()> {
    read_by(rt, region, p, hint, expected, "document 01")
}

// The sample's update. That its type is told as it was written is document 02's request 4.
fn updated(rt: &impl Print, three: &[u8], hint: usize) -> io::Result<()> {
    read_by(rt, three, 16, hint, Ok(sample::update()), "request 4")
}

// The update has 14 bytes.
fn hints(rt: &impl Print, three: &[u8]) -> io::Result<()> {
    println!(rt; "read at a place, insert, update and tombstone in 48 bytes")?;
    read(rt, three, 0, 48, Ok(sample::insert()))?;
    read(rt, three, 16, 0, Err(Refusal::EntryTooShort))?;
    read(rt, three, 16, 7, Err(Refusal::EntryTooShort))?;
    read(rt, three, 16, 8, Err(Refusal::EntryTooShort))?;
    read(rt, three, 16, 13, Err(Refusal::EntryTooShort))?;
    updated(rt, three, 14)?;
    updated(rt, three, 15)?;
    updated(rt, three, 18446744073709551615)
}

// At 48 the region ends. The tombstone's key stands where a data entry has its value's length, which
// makes 14,145 bytes.
fn places(rt: &impl Print, three: &[u8]) -> io::Result<()> {
    read(rt, three, 15, 48, Err(Refusal::NotOnLine))?;
    read(rt, three, 17, 48, Err(Refusal::NotOnLine))?;
    read(rt, three, 32, 48, Err(Refusal::EntryTooShort))?;
    read(rt, three, 48, 48, Err(Refusal::EntryTooShort))?;
    read(rt, three, 64, 48, Err(Refusal::EntryTooShort))?;
    read(
        rt,
        three,
        18446744073709551600,
        18446744073709551615,
        Err(Refusal::EntryTooShort),
    )
}

// The order: 6 if under 8 bytes; 7; 6 if shorter than the data layout says; 8; 9.
fn wrong_mark(rt: &impl Print, three: &[u8]) -> io::Result<()> {
    println!(rt; "read at a place, the insert's mark wrong")?;
    read(rt, three, 0, 7, Err(Refusal::EntryTooShort))?;
    read(rt, three, 0, 8, Err(Refusal::WrongMark))?;
    read(rt, three, 0, 48, Err(Refusal::WrongMark))
}

fn wrong_checksum(rt: &impl Print, three: &[u8]) -> io::Result<()> {
    println!(rt; "read at a place, the insert's value changed and so its checksum wrong")?;
    read(rt, three, 0, 12, Err(Refusal::EntryTooShort))?;
    read(rt, three, 0, 13, Err(Refusal::WrongChecksum))
}

// "Checking type before checksum" would give 9.
fn wrong_both(rt: &impl Print, three: &[u8]) -> io::Result<()> {
    println!(rt; "read at a place, the insert's type changed to 3 and so its checksum wrong")?;
    read(rt, three, 0, 13, Err(Refusal::WrongChecksum))
}

// The insert's fields with another type, each with the checksum that belongs to it.
const TYPE_2: [u8; 13] = [
    0xc0, 0x17, 0x5a, 0x81, 0x02, 0x00, 0x01, 0x00, 0x39, 0x41, 0x37, 0x3e, 0x21,
];

const TYPE_3: [u8; 13] = [
    0xc0, 0x17, 0x5a, 0xc1, 0x02, 0x00, 0x01, 0x00, 0x39, 0x41, 0x37, 0xee, 0xd7,
];

fn wrong_type(rt: &impl Print) -> io::Result<()> {
    println!(rt; "read at a place, type 2 and then type 3 in the data layout, the checksum right")?;
    read(rt, &TYPE_2, 0, 13, Err(Refusal::TypeNotAllowed))?;
    read(rt, &TYPE_3, 0, 13, Err(Refusal::TypeNotAllowed))?;
    read(rt, &TYPE_3, 0, 12, Err(Refusal::EntryTooShort))
}

pub fn trials(rt: &impl Print) -> io::Result<()> {
    let three = sample::THREE;
    hints(rt, &three)?;
    places(rt, &three)?;
    wrong_mark(rt, &sample::changed(0, 0xc1))?;
    wrong_checksum(rt, &sample::changed(8, 0x38))?;
    wrong_both(rt, &sample::changed(3, 0xc1))?;
    wrong_type(rt)
}
