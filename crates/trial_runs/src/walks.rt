// The walk and the durable end, refusals 4 and 10, and the key and the value as parts of the region.
use crate::judge::{Found, Listed};
use crate::{judge, sample};
use answers::{Refusal, Stopped};
use entry::Entry;
use std::io;

pub fn walk(
    rt: &impl Print,
    region: &[u8],
    bound: usize,
    from: usize,
    expected: Result<Option<Entry>, Stopped>,
) -> io::Result<()> {
    print!(rt; "  walk {} bytes, bound {bound}, from {from}", region.len())?;
    let answered = scan::walk(region, sample::FILE, bound, from);
    judge::answer(
        rt,
        answered.map(|found| Found(found.map(Listed))),
        expected.map(|found| Found(found.map(Listed))),
        "document 01",
    )
}

pub fn durable(
    rt: &impl Print,
    region: &[u8],
    bound: usize,
    expected: Result<usize, Stopped>,
) -> io::Result<()> {
    print!(rt; "  durable end of {} bytes, bound {bound}", region.len())?;
    let answered = tail::durable_end(region, sample::FILE, bound);
    judge::answer(rt, answered.end, expected, "document 01")
}

pub fn parts(rt: &impl Print, region: &[u8], e: Entry, key: &[u8], value: &[u8]) -> io::Result<()> {
    print!(rt;
        "  in {} bytes, key of the entry at {}",
        region.len(),
        e.offset
    )?;
    judge::bytes(rt, scan::key_of(region, e), key)?;
    print!(rt;
        "  in {} bytes, value of the entry at {}",
        region.len(),
        e.offset
    )?;
    judge::bytes(rt, scan::value_of(region, e), value)
}

pub const PAST_REGION: Stopped = Stopped::Refused(Refusal::BoundPastRegion);

fn offsets(rt: &impl Print, three: &[u8]) -> io::Result<()> {
    println!(rt; "walk, insert, update and tombstone in 48 bytes")?;
    walk(rt, three, 48, 0, Ok(Some(sample::insert())))?;
    walk(rt, three, 48, 1, Ok(Some(sample::update())))?;
    walk(rt, three, 48, 13, Ok(Some(sample::update())))?;
    walk(rt, three, 48, 16, Ok(Some(sample::update())))?;
    walk(rt, three, 48, 17, Ok(Some(sample::tombstone())))?;
    walk(rt, three, 48, 42, Ok(None))?;
    walk(rt, three, 48, 48, Ok(None))?;
    walk(rt, three, 48, 18446744073709551615, Ok(None))
}

// A bound counts where an entry begins, and not where it ends. 4 comes before End.
fn bounds(rt: &impl Print, three: &[u8]) -> io::Result<()> {
    walk(rt, three, 47, 30, Ok(Some(sample::tombstone())))?;
    walk(rt, three, 33, 30, Ok(Some(sample::tombstone())))?;
    walk(rt, three, 32, 30, Ok(None))?;
    walk(rt, three, 0, 0, Ok(None))?;
    walk(rt, three, 49, 0, Err(PAST_REGION))?;
    walk(rt, three, 49, 49, Err(PAST_REGION))?;
    walk(rt, three, 18446744073709551615, 0, Err(PAST_REGION))
}

fn durable_ends(rt: &impl Print, three: &[u8]) -> io::Result<()> {
    durable(rt, three, 49, Err(PAST_REGION))?;
    durable(rt, three, 48, Ok(48))?;
    durable(rt, three, 17, Ok(32))?;
    durable(rt, three, 16, Ok(16))?;
    durable(rt, three, 0, Ok(0))
}

// Places that the region doesn't hold give an empty part.
fn keys_and_values(rt: &impl Print, three: &[u8; 48]) -> io::Result<()> {
    parts(rt, three, sample::update(), b"A7", b"10")?;
    parts(rt, three, sample::tombstone(), b"A7", b"")?;
    parts(rt, &three[..28], sample::update(), b"A7", b"10")?;
    parts(rt, &three[..27], sample::update(), b"", b"10")?;
    parts(rt, &three[..25], sample::update(), b"", b"")
}

// The entry has to lie within the region.
fn cut(rt: &impl Print, three: &[u8; 48]) -> io::Result<()> {
    walk(rt, &three[..42], 42, 30, Ok(Some(sample::tombstone())))?;
    walk(rt, &three[..41], 41, 30, Ok(None))
}

// A wrong checksum: the next line is tried.
fn torn(rt: &impl Print, three: &[u8]) -> io::Result<()> {
    println!(rt; "walk, the update's value changed and so its checksum wrong")?;
    walk(rt, three, 48, 13, Ok(Some(sample::tombstone())))?;
    durable(rt, three, 48, Ok(48))
}

// Type 3, whatever the checksum, which is wrong here.
fn unknown(rt: &impl Print, three: &[u8]) -> io::Result<()> {
    println!(rt; "walk, the update's type changed to 3")?;
    walk(rt, three, 48, 0, Ok(Some(sample::insert())))?;
    walk(rt, three, 48, 13, Err(Stopped::UnknownAt(16)))?;
    walk(rt, three, 16, 13, Ok(None))?;
    walk(rt, three, 48, 17, Ok(Some(sample::tombstone())))?;
    durable(rt, three, 48, Err(Stopped::UnknownAt(16)))?;
    durable(rt, three, 16, Ok(16))
}

// Fewer than 8 bytes left end the walk, even where a line of type 3 begins with them.
fn unknown_last(rt: &impl Print, three: &[u8; 48]) -> io::Result<()> {
    println!(rt; "walk, the tombstone's type changed to 3")?;
    walk(rt, &three[..40], 40, 30, Err(Stopped::UnknownAt(32)))?;
    walk(rt, &three[..39], 39, 30, Ok(None))
}

pub fn trials(rt: &impl Print) -> io::Result<()> {
    let three = sample::THREE;
    offsets(rt, &three)?;
    bounds(rt, &three)?;
    durable_ends(rt, &three)?;
    keys_and_values(rt, &three)?;
    cut(rt, &three)?;
    torn(rt, &sample::changed(24, 0x32))?;
    unknown(rt, &sample::changed(19, 0xc1))?;
    unknown_last(rt, &sample::changed(35, 0xc1))
}
