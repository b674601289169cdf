// One entry of 13 bytes in a region of 13 bytes: the used bound is no multiple of 16, the entry ends
// flush with the region, and the durable end lies past both. An append finds no place here.
use crate::{appends, grids, headers, judge, reads, sample, walks};
use answers::Refusal;
use std::io;

fn used(rt: &impl Print, region: &[u8], expected: Result<usize, Refusal>) -> io::Result<()> {
    print!(rt; "  used bound, bytes {}", region.len())?;
    judge::answer(rt, tail::used_bound(region), expected, "document 01")
}

fn tails(rt: &impl Print, region: &[u8]) -> io::Result<()> {
    println!(rt; "one entry of 13 bytes in a region of 13 bytes, through every operation")?;
    used(rt, region, Ok(13))?;
    walks::durable(rt, region, 13, Ok(16))?;
    walks::durable(rt, region, 1, Ok(16))?;
    walks::durable(rt, region, 0, Ok(0))?;
    walks::durable(rt, region, 14, Err(walks::PAST_REGION))?;
    grids::counted(rt, region, grids::only(1, 1, 0, 0))
}

fn walked(rt: &impl Print, region: &[u8]) -> io::Result<()> {
    walks::walk(rt, region, 13, 0, Ok(Some(sample::insert())))?;
    walks::walk(rt, region, 1, 0, Ok(Some(sample::insert())))?;
    walks::walk(rt, region, 13, 1, Ok(None))?;
    walks::walk(rt, region, 13, 13, Ok(None))?;
    walks::walk(rt, region, 14, 0, Err(walks::PAST_REGION))?;
    walks::parts(rt, region, sample::insert(), b"A7", b"9")
}

fn read(rt: &impl Print, region: &[u8]) -> io::Result<()> {
    headers::read(rt, region, Err(Refusal::HeaderTooShort))?;
    reads::read(rt, region, 0, 12, Err(Refusal::EntryTooShort))?;
    reads::read(rt, region, 0, 13, Ok(sample::insert()))?;
    reads::read(rt, region, 0, 14, Ok(sample::insert()))?;
    reads::read(rt, region, 0, 18446744073709551615, Ok(sample::insert()))?;
    reads::read(rt, region, 13, 13, Err(Refusal::NotOnLine))?;
    reads::read(rt, region, 16, 13, Err(Refusal::EntryTooShort))
}

fn appended(rt: &impl Print, region: &mut [u8]) -> io::Result<()> {
    let nine = sample::item(0, 1, b"9");
    appends::data(rt, region, 0, nine, Err(Refusal::NoSpace))?;
    appends::data(rt, region, 13, nine, Err(Refusal::NotOnLine))?;
    appends::data(rt, region, 16, nine, Err(Refusal::NoSpace))?;
    appends::tombstone(rt, region, 0, 1, b"A7", Err(Refusal::NoSpace))?;
    appends::tombstone(rt, region, 16, 1, b"A7", Err(Refusal::NoSpace))
}

pub fn trials(rt: &impl Print) -> io::Result<()> {
    let mut region = sample::THIRTEEN;
    tails(rt, &region)?;
    walked(rt, &region)?;
    read(rt, &region)?;
    headers::write(rt, &mut region, Err(Refusal::HeaderTooShort))?;
    appended(rt, &mut region)?;
    print!(rt; "  the 13 bytes are as found after all of these")?;
    judge::holds(rt, region == sample::THIRTEEN, "document 01")
}
