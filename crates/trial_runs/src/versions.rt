// Document 02, request 10: the calls that need a mark take version and ordinal. Any other version
// than 1 and 2 gets 2, before all other refusals; in the header's writer 1 comes first.
use crate::judge::{File, Found};
use crate::sample::{file, item};
use crate::{headers, judge, sample};
use answers::{LogFile, Refusal, Stopped};
use std::io;

const NEITHER: Stopped = Stopped::Refused(Refusal::WrongHeader);

// The walk from 0 to the bound; of an entry, where it ends.
fn walk(
    rt: &impl Print,
    region: &[u8],
    file: LogFile,
    bound: usize,
    expected: Result<Option<usize>, Stopped>,
) -> io::Result<()> {
    print!(rt; "  {}, walk", File(file))?;
    let answered = scan::walk(region, file, bound, 0);
    judge::answer(
        rt,
        answered.map(|found| Found(found.map(|e| e.end))),
        expected.map(Found),
        "request 10",
    )
}

fn durable(
    rt: &impl Print,
    region: &[u8],
    file: LogFile,
    bound: usize,
    expected: Result<usize, Stopped>,
) -> io::Result<()> {
    print!(rt; "  {}, durable end", File(file))?;
    let answered = tail::durable_end(region, file, bound);
    judge::answer(rt, answered.end, expected, "request 10")
}

fn read(
    rt: &impl Print,
    region: &[u8],
    file: LogFile,
    p: usize,
    expected: Result<usize, Refusal>,
) -> io::Result<()> {
    print!(rt; "  {}, read", File(file))?;
    let answered = read::read_at(region, file, p, 48);
    judge::answer(rt, answered.map(|e| e.end), expected, "request 10")
}

fn data(
    rt: &impl Print,
    region: &mut [u8],
    file: LogFile,
    used: usize,
    kind: u64,
    value: &[u8],
    expected: Result<usize, Refusal>,
) -> io::Result<()> {
    print!(rt; "  {}, append type {kind}", File(file))?;
    let asked = item(kind, 1, value);
    judge::written(
        rt,
        region,
        |region| append::append_data(region, file, used, asked),
        expected,
        "request 10",
    )
}

fn tombstone(
    rt: &impl Print,
    region: &mut [u8],
    file: LogFile,
    used: usize,
    expected: Result<usize, Refusal>,
) -> io::Result<()> {
    print!(rt; "  {}, append tombstone", File(file))?;
    judge::written(
        rt,
        region,
        |region| append::append_tombstone(region, file, used, 1, b"A7"),
        expected,
        "request 10",
    )
}

// Everything else is wrong too: the bound, the place, the used count and the type. The version is a
// number here, because it is one that no file has.
fn neither(rt: &impl Print, region: &mut [u8], version: u64) -> io::Result<()> {
    let file = file(version, 7);
    walk(rt, region, file, 49, Err(NEITHER))?;
    durable(rt, region, file, 49, Err(NEITHER))?;
    read(rt, region, file, 1, Err(Refusal::WrongHeader))?;
    data(rt, region, file, 1, 2, b"9", Err(Refusal::WrongHeader))?;
    tombstone(rt, region, file, 1, Err(Refusal::WrongHeader))
}

// 2^32 + 1 and 2^32 + 2 have a version's low four bytes.
fn other_versions(rt: &impl Print) -> io::Result<()> {
    println!(rt; "version 0, 3, 257, 2^32 + 1, 2^32 + 2 and 2^64 - 1, and all else wrong too")?;
    let mut region = sample::THREE;
    for version in [0, 3, 257, 4294967297, 4294967298, 18446744073709551615] {
        neither(rt, &mut region, version)?;
    }
    Ok(())
}

// The version is a number here, because it may be one that no file has.
fn write_header(
    rt: &impl Print,
    lent: &mut [u8],
    version: u64,
    expected: Result<(), Refusal>,
) -> io::Result<()> {
    let file = file(version, 7);
    print!(rt; "  {}, write header, bytes {}", File(file), lent.len())?;
    headers::write_by(rt, lent, file, expected, "request 10")
}

fn header_writer(rt: &impl Print) -> io::Result<()> {
    println!(rt; "header writer, 1 before 2")?;
    write_header(rt, &mut [0x55u8; 4095], 3, Err(Refusal::HeaderTooShort))?;
    let mut whole = [0x55u8; 4096];
    write_header(rt, &mut whole, 0, Err(Refusal::WrongHeader))?;
    write_header(rt, &mut whole, 3, Err(Refusal::WrongHeader))?;
    write_header(rt, &mut whole, 4294967298, Err(Refusal::WrongHeader))?;
    write_header(rt, &mut whole, 2, Ok(()))?;
    headers::read(rt, &whole, Ok(file(2, 7)))
}

// The three entries appended in version 2, and their bytes.
fn three_in_version_2(rt: &impl Print, ordinal: u64) -> io::Result<()> {
    let file = file(2, ordinal);
    let mut region = [0; 48];
    data(rt, &mut region, file, 0, 0, b"9", Ok(16))?;
    data(rt, &mut region, file, 16, 1, b"10", Ok(32))?;
    tombstone(rt, &mut region, file, 32, Ok(48))?;
    print!(rt; "  the marks are 0x5A17C7, 0x5A17C8 and 0x5A17C9")?;
    judge::holds(rt, region == sample::THREE_IN_VERSION_2, "request 10")
}

// 16,777,223 is 2^24 + 7.
fn written(rt: &impl Print) -> io::Result<()> {
    println!(rt;
        "insert, update and tombstone in a version 2 file, of two ordinals with the same marks"
    )?;
    three_in_version_2(rt, 7)?;
    three_in_version_2(rt, 16777223)
}

// An entry that is left at its old place.
fn recycled(rt: &impl Print) -> io::Result<()> {
    println!(rt; "the entries of ordinal 7 under other ordinals and under version 1")?;
    let region = sample::THREE_IN_VERSION_2;
    walk(rt, &region, file(2, 7), 48, Ok(Some(13)))?;
    walk(rt, &region, file(2, 16777223), 48, Ok(Some(13)))?;
    walk(rt, &region, file(2, 8), 48, Ok(None))?;
    durable(rt, &region, file(2, 7), 48, Ok(48))?;
    durable(rt, &region, file(2, 8), 48, Ok(0))?;
    durable(rt, &region, file(1, 7), 48, Ok(0))?;
    read(rt, &region, file(2, 7), 0, Ok(13))?;
    read(rt, &region, file(2, 8), 0, Err(Refusal::WrongMark))?;
    read(rt, &region, file(1, 7), 0, Err(Refusal::WrongMark))
}

// Version 1 has the marks of version 2 with an ordinal that is 0 modulo 2^24, and no others.
fn of_version_1(rt: &impl Print) -> io::Result<()> {
    println!(rt; "the entries of version 1 under version 2")?;
    let region = sample::THREE;
    durable(rt, &region, file(1, 18446744073709551615), 48, Ok(48))?;
    durable(rt, &region, file(2, 0), 48, Ok(48))?;
    durable(rt, &region, file(2, 16777216), 48, Ok(48))?;
    durable(rt, &region, file(2, 1), 48, Ok(0))
}

// Ordinal 0xA5E83F gives offset 0 the mark 0xFFFFFF, so a line of 0xff is one of type 3 there.
fn erased(rt: &impl Print) -> io::Result<()> {
    println!(rt; "16 bytes of 0xff")?;
    let region = [0xffu8; 16];
    walk(rt, &region, file(2, 10872894), 16, Ok(None))?;
    walk(
        rt,
        &region,
        file(2, 10872895),
        16,
        Err(Stopped::UnknownAt(0)),
    )?;
    durable(
        rt,
        &region,
        file(2, 10872895),
        16,
        Err(Stopped::UnknownAt(0)),
    )?;
    walk(rt, &region, file(2, 10872896), 16, Ok(None))?;
    walk(rt, &region, file(1, 10872895), 16, Ok(None))
}

pub fn trials(rt: &impl Print) -> io::Result<()> {
    other_versions(rt)?;
    header_writer(rt)?;
    written(rt)?;
    recycled(rt)?;
    of_version_1(rt)?;
    erased(rt)
}
