// Document 02, request 8: the durable end tells how many lines it tried and how many bytes it
// checksummed, with an end and with refusal 10. A line is tried where it lies below the bound and at
// least 8 bytes are left; a right mark with type 0, 1 or 2 adds its entry's length less 2 if the
// whole entry lies within the region.
use crate::judge::{File, Refuses};
use crate::sample::file;
use crate::{judge, sample, walks};
use answers::{LogFile, Refusal, Stopped};
use scan::Effort;
use std::{fmt, io};
use tail::CountedEnd;

// A durable end with what it took, which is written with an end and with refusal 10.
#[derive(Clone, Copy, PartialEq, Eq)]
struct Counted(CountedEnd);

impl fmt::Display for Counted {
    fn fmt<W: fmt::Write>(&self, f: &mut fmt::Formatter<W>) -> fmt::Result {
        match self.0.end {
            Ok(end) => write!(f, "{end}")?,
            Err(Stopped::Refused(refusal)) => return write!(f, "{refusal}"),
            Err(stopped) => write!(f, "{stopped}")?,
        }
        let effort = self.0.effort;
        write!(f, ", lines {}, bytes {}", effort.lines, effort.bytes)
    }
}

fn after(end: Result<usize, Stopped>, lines: usize, bytes: usize) -> Counted {
    Counted(CountedEnd {
        end,
        effort: Effort { lines, bytes },
    })
}

fn unknown_at(place: usize) -> Result<usize, Stopped> {
    Err(Stopped::UnknownAt(place))
}

fn durable_in(
    rt: &impl Print,
    region: &[u8],
    file: LogFile,
    bound: usize,
    expected: Counted,
) -> io::Result<()> {
    print!(rt; "durable end of {} bytes, bound {bound}", region.len())?;
    let answered = tail::durable_end(region, file, bound);
    let case = match answered.end {
        Ok(_) => None,
        Err(stopped) => Some(stopped.case()),
    };
    judge::told_by(rt, Counted(answered), case, expected, "request 8")
}

fn durable(rt: &impl Print, region: &[u8], bound: usize, expected: Counted) -> io::Result<()> {
    print!(rt; "  ")?;
    durable_in(rt, region, sample::FILE, bound, expected)
}

// A region to its end.
fn whole(rt: &impl Print, region: &[u8], expected: Counted) -> io::Result<()> {
    durable(rt, region, region.len(), expected)
}

fn under(
    rt: &impl Print,
    region: &[u8],
    file: LogFile,
    bound: usize,
    expected: Counted,
) -> io::Result<()> {
    print!(rt; "  {}, ", File(file))?;
    durable_in(rt, region, file, bound, expected)
}

// The three entries, of which one byte is changed.
fn changed(rt: &impl Print, at: usize, byte: u8, expected: Counted) -> io::Result<()> {
    print!(rt; "  byte {at} now {byte}, ")?;
    durable_in(rt, &sample::changed(at, byte), sample::FILE, 48, expected)
}

// Entries of 13, 14 and 10 bytes. A bound in the middle of a line leaves the line to be tried.
fn bounds(rt: &impl Print, three: &[u8]) -> io::Result<()> {
    println!(rt; "lines tried and bytes checksummed, insert, update and tombstone in 48 bytes")?;
    durable(rt, three, 48, after(Ok(48), 3, 31))?;
    durable(rt, three, 33, after(Ok(48), 3, 31))?;
    durable(rt, three, 32, after(Ok(32), 2, 23))?;
    durable(rt, three, 17, after(Ok(32), 2, 23))?;
    durable(rt, three, 16, after(Ok(16), 1, 11))?;
    durable(rt, three, 1, after(Ok(16), 1, 11))?;
    durable(rt, three, 0, after(Ok(0), 0, 0))
}

// An entry that reaches one byte past the region adds nothing, and a line with fewer than 8 bytes
// isn't tried.
fn cut(rt: &impl Print, three: &[u8; 48]) -> io::Result<()> {
    println!(rt; "lines tried and bytes checksummed, the region cut")?;
    whole(rt, &three[..42], after(Ok(48), 3, 31))?;
    whole(rt, &three[..41], after(Ok(32), 3, 23))?;
    whole(rt, &three[..40], after(Ok(32), 3, 23))?;
    whole(rt, &three[..39], after(Ok(32), 2, 23))?;
    whole(rt, &three[..13], after(Ok(16), 1, 11))?;
    whole(rt, &three[..12], after(Ok(0), 1, 0))?;
    whole(rt, &three[..8], after(Ok(0), 1, 0))?;
    whole(rt, &three[..7], after(Ok(0), 0, 0))?;
    whole(rt, &three[..0], after(Ok(0), 0, 0))
}

fn zeros(rt: &impl Print, region: &[u8; 64]) -> io::Result<()> {
    println!(rt; "lines tried and bytes checksummed, zeros")?;
    whole(rt, region, after(Ok(0), 4, 0))?;
    whole(rt, &region[..56], after(Ok(0), 4, 0))?;
    whole(rt, &region[..55], after(Ok(0), 3, 0))?;
    durable(rt, region, 33, after(Ok(0), 3, 0))
}

// A wrong mark adds nothing, a wrong checksum as much as a right one; a key that reaches to the
// region's end, and one that reaches a byte past it; type 3 ends it, and its line counts.
fn damaged(rt: &impl Print) -> io::Result<()> {
    println!(rt; "lines tried and bytes checksummed, one byte of the three entries changed")?;
    changed(rt, 16, 0xc0, after(Ok(48), 3, 19))?;
    changed(rt, 24, 0x32, after(Ok(48), 3, 31))?;
    changed(rt, 20, 20, after(Ok(48), 3, 49))?;
    changed(rt, 20, 21, after(Ok(48), 3, 19))?;
    changed(rt, 3, 0xc1, after(unknown_at(0), 1, 0))?;
    changed(rt, 19, 0xc1, after(unknown_at(16), 2, 11))?;
    changed(rt, 35, 0xc1, after(unknown_at(32), 3, 23))
}

fn unknown_cut(rt: &impl Print, three: &[u8; 48]) -> io::Result<()> {
    println!(rt; "lines tried and bytes checksummed, the tombstone's type changed to 3")?;
    durable(rt, three, 33, after(unknown_at(32), 3, 23))?;
    durable(rt, three, 32, after(Ok(32), 2, 23))?;
    whole(rt, &three[..40], after(unknown_at(32), 3, 23))?;
    whole(rt, &three[..39], after(Ok(32), 2, 23))
}

// An entry of 42 bytes in 64: verified, its own lines are passed over; torn, each of them is tried.
fn over_lines(rt: &impl Print) -> io::Result<()> {
    println!(rt; "lines tried and bytes checksummed, an entry of three lines, and the same torn")?;
    let mut region = [0; 64];
    let longer = sample::item(0, 1, b"123456789012345678901234567890");
    let _ = append::append_data(&mut region, sample::FILE, 0, longer);
    whole(rt, &region, after(Ok(48), 2, 40))?;
    region[8] = 0x32;
    whole(rt, &region, after(Ok(0), 4, 40))
}

// The first line says that a key and a value of 65,535 bytes each follow, which is the most that one
// line can add. The region has just as many bytes as that, and its checksum is wrong.
fn longest(rt: &impl Print, region: &[u8; 131080]) -> io::Result<()> {
    println!(rt; "lines tried and bytes checksummed, key and value of 65,535 bytes each")?;
    durable(rt, region, 16, after(Ok(0), 1, 131078))?;
    whole(rt, region, after(Ok(0), 8193, 131078))?;
    whole(rt, &region[..131079], after(Ok(0), 8192, 0))
}

fn of_version_2(rt: &impl Print) -> io::Result<()> {
    println!(rt; "lines tried and bytes checksummed, the three entries in version 2, and 0xff")?;
    let region = sample::THREE_IN_VERSION_2;
    under(rt, &region, file(2, 7), 48, after(Ok(48), 3, 31))?;
    under(rt, &region, file(2, 8), 48, after(Ok(0), 3, 0))?;
    under(rt, &region, file(1, 7), 48, after(Ok(0), 3, 0))?;
    let erased = [0xffu8; 48];
    under(
        rt,
        &erased,
        file(2, 10872895),
        48,
        after(unknown_at(0), 1, 0),
    )?;
    under(
        rt,
        &erased,
        file(2, 10872893),
        48,
        after(unknown_at(32), 3, 0),
    )
}

// 2 and 4 come without counts: no line was tried.
fn refused(rt: &impl Print, three: &[u8]) -> io::Result<()> {
    println!(rt; "lines tried and bytes checksummed, not with 2 and 4")?;
    let neither = Err(Stopped::Refused(Refusal::WrongHeader));
    under(rt, three, file(3, 7), 48, after(neither, 0, 0))?;
    under(rt, three, file(0, 7), 49, after(neither, 0, 0))?;
    let past_region = Err(walks::PAST_REGION);
    under(rt, three, file(1, 7), 49, after(past_region, 0, 0))?;
    under(rt, three, file(2, 0), 49, after(past_region, 0, 0))
}

pub fn trials(rt: &impl Print) -> io::Result<()> {
    let three = sample::THREE;
    bounds(rt, &three)?;
    cut(rt, &three)?;
    zeros(rt, &[0u8; 64])?;
    damaged(rt)?;
    unknown_cut(rt, &sample::changed(35, 0xc1))?;
    over_lines(rt)?;
    let mut region = [0u8; 131080];
    region[..8].copy_from_slice(&[0xc0, 0x17, 0x5a, 0x00, 0xff, 0xff, 0xff, 0xff]);
    longest(rt, &region)?;
    of_version_2(rt)?;
    refused(rt, &three)
}
