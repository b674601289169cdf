// Document 01, "Trials" on the largest entry and on the capacity, and the refusals of both appends,
// 5, 9, 17, 11, 12 and 13, each at its limit and past it, and in their order. A refused append has to
// leave the region as found too.
use crate::judge::Found;
use crate::{judge, sample};
use answers::Refusal;
use append::Item;
use std::io;

// The region's length is its capacity.
pub fn data(
    rt: &impl Print,
    region: &mut [u8],
    used: usize,
    asked: Item,
    expected: Result<usize, Refusal>,
) -> io::Result<()> {
    print!(rt;
        "  append type {}, capacity {}, used {used}",
        asked.kind,
        region.len()
    )?;
    print!(rt;
        ", ns {}, key {}, value {}",
        asked.ns,
        asked.key.len(),
        asked.value.len()
    )?;
    judge::written(
        rt,
        region,
        |region| append::append_data(region, sample::FILE, used, asked),
        expected,
        "document 01",
    )
}

pub fn tombstone(
    rt: &impl Print,
    region: &mut [u8],
    used: usize,
    ns: u64,
    key: &[u8],
    expected: Result<usize, Refusal>,
) -> io::Result<()> {
    print!(rt;
        "  append tombstone, capacity {}, used {used}",
        region.len()
    )?;
    print!(rt; ", ns {ns}, key {}", key.len())?;
    judge::written(
        rt,
        region,
        |region| append::append_tombstone(region, sample::FILE, used, ns, key),
        expected,
        "document 01",
    )
}

// With a key and a value as long as they are asked to be. The numbers stay apart: a struct at each
// trial's line would be no plainer.
fn of_lengths(
    rt: &impl Print,
    region: &mut [u8],
    used: usize,
    kind: u64,
    ns: u64,
    klen: usize,
    vlen: usize,
    expected: Result<usize, Refusal>,
) -> io::Result<()> {
    let source = [0x6bu8; 32769];
    let asked = Item {
        kind,
        ns,
        key: start_of(&source, klen),
        value: start_of(&source, vlen),
    };
    data(rt, region, used, asked, expected)
}

fn tombstone_of_length(
    rt: &impl Print,
    region: &mut [u8],
    used: usize,
    ns: u64,
    klen: usize,
    expected: Result<usize, Refusal>,
) -> io::Result<()> {
    let source = [0x6bu8; 4097];
    tombstone(rt, region, used, ns, start_of(&source, klen), expected)
}

// The first n bytes of a run, which is as long as the longest that is asked for. No trial asks for more,
// and an Option at each trial's line would be no plainer.
fn start_of(run: &[u8], n: usize) -> &[u8] {
    run.get(..n).unwrap_or(&[])
}

// "Capacity 48: used 32 with length 16 is accepted, with 32 gets 13." A key of 2 and a value of 4
// make 16 bytes, flush; a value of 5 makes 17, aligned 32.
fn capacity(rt: &impl Print) -> io::Result<()> {
    println!(rt; "append")?;
    of_lengths(rt, &mut [0x55u8; 48], 32, 0, 1, 2, 4, Ok(48))?;
    of_lengths(rt, &mut [0x55u8; 48], 32, 0, 1, 2, 5, Err(Refusal::NoSpace))?;
    of_lengths(rt, &mut [0x55u8; 48], 48, 0, 1, 2, 4, Err(Refusal::NoSpace))?;
    of_lengths(rt, &mut [0x55u8; 48], 64, 0, 1, 2, 4, Err(Refusal::NoSpace))?;
    of_lengths(
        rt,
        &mut [0x55u8; 48],
        18446744073709551600,
        0,
        1,
        2,
        4,
        Err(Refusal::NoSpace),
    )?;
    of_lengths(rt, &mut [0x55u8; 47], 32, 0, 1, 2, 4, Err(Refusal::NoSpace))?;
    of_lengths(rt, &mut [0x55u8; 49], 32, 0, 1, 2, 4, Ok(48))
}

// Used count, type and namespace at their limits.
fn limits(rt: &impl Print) -> io::Result<()> {
    of_lengths(
        rt,
        &mut [0x55u8; 48],
        15,
        0,
        1,
        2,
        4,
        Err(Refusal::NotOnLine),
    )?;
    of_lengths(rt, &mut [0x55u8; 48], 16, 0, 1, 2, 4, Ok(32))?;
    of_lengths(
        rt,
        &mut [0x55u8; 48],
        17,
        0,
        1,
        2,
        4,
        Err(Refusal::NotOnLine),
    )?;
    of_lengths(
        rt,
        &mut [0x55u8; 48],
        18446744073709551615,
        0,
        1,
        2,
        4,
        Err(Refusal::NotOnLine),
    )?;
    of_lengths(rt, &mut [0x55u8; 48], 0, 1, 1, 2, 4, Ok(16))?;
    of_lengths(
        rt,
        &mut [0x55u8; 48],
        0,
        2,
        1,
        2,
        4,
        Err(Refusal::TypeNotAllowed),
    )?;
    of_lengths(
        rt,
        &mut [0x55u8; 48],
        0,
        3,
        1,
        2,
        4,
        Err(Refusal::TypeNotAllowed),
    )?;
    of_lengths(
        rt,
        &mut [0x55u8; 48],
        0,
        18446744073709551615,
        1,
        2,
        4,
        Err(Refusal::TypeNotAllowed),
    )?;
    of_lengths(rt, &mut [0x55u8; 48], 0, 0, 0, 2, 4, Ok(16))?;
    of_lengths(rt, &mut [0x55u8; 48], 0, 0, 63, 2, 4, Ok(16))?;
    of_lengths(
        rt,
        &mut [0x55u8; 48],
        0,
        0,
        64,
        2,
        4,
        Err(Refusal::NamespaceTooLarge),
    )?;
    of_lengths(
        rt,
        &mut [0x55u8; 48],
        0,
        0,
        18446744073709551615,
        2,
        4,
        Err(Refusal::NamespaceTooLarge),
    )
}

// "Key 4,096 passes, 4,097 gets 11."
fn lengths(rt: &impl Print) -> io::Result<()> {
    of_lengths(rt, &mut [0x55u8; 40000], 0, 0, 1, 0, 0, Ok(16))?;
    of_lengths(rt, &mut [0x55u8; 40000], 0, 0, 1, 4095, 0, Ok(4112))?;
    of_lengths(rt, &mut [0x55u8; 40000], 0, 0, 1, 4096, 0, Ok(4112))?;
    of_lengths(
        rt,
        &mut [0x55u8; 40000],
        0,
        0,
        1,
        4097,
        0,
        Err(Refusal::KeyTooLong),
    )?;
    of_lengths(rt, &mut [0x55u8; 40000], 0, 0, 1, 0, 32767, Ok(32784))?;
    of_lengths(rt, &mut [0x55u8; 40000], 0, 0, 1, 0, 32768, Ok(32784))?;
    of_lengths(
        rt,
        &mut [0x55u8; 40000],
        0,
        0,
        1,
        0,
        32769,
        Err(Refusal::ValueTooLong),
    )
}

// "Largest writable data entry: 36,874 bytes, 36,880 aligned." The end that the walk reports isn't
// rounded, so for an entry at 0 it is the length.
fn largest(rt: &impl Print) -> io::Result<()> {
    let mut region = [0x55u8; 36880];
    of_lengths(rt, &mut region, 0, 0, 1, 4096, 32768, Ok(36880))?;
    print!(rt; "  its length")?;
    let answered = scan::walk(&region, sample::FILE, region.len(), 0);
    judge::answer(
        rt,
        answered.map(|found| Found(found.map(|e| e.end))),
        Ok(Found(Some(36874))),
        "document 01",
    )
}

fn largest_entries(rt: &impl Print) -> io::Result<()> {
    largest(rt)?;
    of_lengths(
        rt,
        &mut [0x55u8; 36879],
        0,
        0,
        1,
        4096,
        32768,
        Err(Refusal::NoSpace),
    )
}

// Everything wrong at once, and then one thing less at each trial.
fn order(rt: &impl Print) -> io::Result<()> {
    println!(rt; "append, refusals in their order")?;
    of_lengths(
        rt,
        &mut [0x55u8; 48],
        1,
        2,
        64,
        4097,
        32769,
        Err(Refusal::NotOnLine),
    )?;
    of_lengths(
        rt,
        &mut [0x55u8; 48],
        32,
        2,
        64,
        4097,
        32769,
        Err(Refusal::TypeNotAllowed),
    )?;
    of_lengths(
        rt,
        &mut [0x55u8; 48],
        32,
        1,
        64,
        4097,
        32769,
        Err(Refusal::NamespaceTooLarge),
    )?;
    of_lengths(
        rt,
        &mut [0x55u8; 48],
        32,
        1,
        63,
        4097,
        32769,
        Err(Refusal::KeyTooLong),
    )?;
    of_lengths(
        rt,
        &mut [0x55u8; 48],
        32,
        1,
        63,
        4096,
        32769,
        Err(Refusal::ValueTooLong),
    )?;
    of_lengths(
        rt,
        &mut [0x55u8; 48],
        32,
        1,
        63,
        4096,
        32768,
        Err(Refusal::NoSpace),
    )?;
    of_lengths(rt, &mut [0x55u8; 48], 32, 1, 63, 2, 4, Ok(48))
}

fn tombstone_order(rt: &impl Print) -> io::Result<()> {
    tombstone_of_length(rt, &mut [0x55u8; 48], 1, 64, 4097, Err(Refusal::NotOnLine))?;
    tombstone_of_length(
        rt,
        &mut [0x55u8; 48],
        32,
        64,
        4097,
        Err(Refusal::NamespaceTooLarge),
    )?;
    tombstone_of_length(
        rt,
        &mut [0x55u8; 48],
        32,
        63,
        4097,
        Err(Refusal::KeyTooLong),
    )?;
    tombstone_of_length(rt, &mut [0x55u8; 48], 32, 63, 4096, Err(Refusal::NoSpace))?;
    tombstone_of_length(rt, &mut [0x55u8; 48], 32, 63, 2, Ok(48))
}

// A key of 8 makes a tombstone of 16 bytes, flush; one of 9 makes 17, aligned 32.
fn tombstones(rt: &impl Print) -> io::Result<()> {
    println!(rt; "append tombstone")?;
    tombstone_of_length(rt, &mut [0x55u8; 48], 32, 1, 8, Ok(48))?;
    tombstone_of_length(rt, &mut [0x55u8; 48], 32, 1, 9, Err(Refusal::NoSpace))?;
    tombstone_of_length(rt, &mut [0x55u8; 48], 15, 1, 2, Err(Refusal::NotOnLine))?;
    tombstone_of_length(rt, &mut [0x55u8; 48], 17, 1, 2, Err(Refusal::NotOnLine))?;
    tombstone_of_length(rt, &mut [0x55u8; 48], 0, 63, 0, Ok(16))?;
    tombstone_of_length(
        rt,
        &mut [0x55u8; 48],
        0,
        64,
        0,
        Err(Refusal::NamespaceTooLarge),
    )?;
    tombstone_of_length(rt, &mut [0x55u8; 4112], 0, 1, 4096, Ok(4112))
}

// What is written at 32 with its filling; the bytes before it and the one behind it stay.
const WRITTEN: [u8; 49] = [
    0x55, 0x55, 0x55, 0x55, 0x55, 0x55, 0x55, 0x55, 0x55, 0x55, 0x55, 0x55, 0x55, 0x55, 0x55, 0x55,
    0x55, 0x55, 0x55, 0x55, 0x55, 0x55, 0x55, 0x55, 0x55, 0x55, 0x55, 0x55, 0x55, 0x55, 0x55, 0x55,
    0xc2, 0x17, 0x5a, 0x01, 0x02, 0x00, 0x01, 0x00, 0x39, 0x41, 0x37, 0x0c, 0x7c, 0xff, 0xff, 0xff,
    0x55,
];

fn written(rt: &impl Print) -> io::Result<()> {
    println!(rt; "append, what is written")?;
    let mut region = [0x55u8; 49];
    data(rt, &mut region, 32, sample::item(0, 1, b"9"), Ok(48))?;
    print!(rt; "  13 bytes at 32, 3 of filling, all others as found")?;
    judge::holds(rt, region == WRITTEN, "document 01")
}

pub fn trials(rt: &impl Print) -> io::Result<()> {
    capacity(rt)?;
    limits(rt)?;
    lengths(rt)?;
    largest_entries(rt)?;
    order(rt)?;
    tombstones(rt)?;
    tombstone_order(rt)?;
    written(rt)
}
