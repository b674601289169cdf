// Document 02, request 9: how many entries of each type stand in each namespace. A grid is held to
// what is expected in every cell; only the namespaces that have entries are written, each with its
// inserts, updates and tombstones. A refusal has to come without a grid.
use crate::judge::File;
use crate::sample::file;
use crate::{judge, sample};
use answers::{LogFile, Refusal, Stopped};
use std::{fmt, io};

#[derive(Clone, Copy, PartialEq, Eq)]
pub struct Grid([[u32; 64]; 3]);

const EMPTY: Grid = Grid([[0; 64]; 3]);

const FULL: Grid = Grid([[1; 64]; 3]);

impl fmt::Display for Grid {
    fn fmt<W: fmt::Write>(&self, f: &mut fmt::Formatter<W>) -> fmt::Result {
        if *self == EMPTY {
            return f.write_str("no entry");
        }
        let [inserts, updates, tombstones] = self.0;
        let mut before = "";
        for ns in 0..64 {
            let column = [inserts[ns], updates[ns], tombstones[ns]];
            if column != [0; 3] {
                let [i, u, t] = column;
                write!(f, "{before}ns {ns} ({i}, {u}, {t})")?;
                before = " ";
            }
        }
        Ok(())
    }
}

// A grid with another number in one cell.
fn with(grid: Grid, kind: usize, ns: usize, n: u32) -> Grid {
    let mut other = grid.0;
    if kind < 3 && ns < 64 {
        other[kind][ns] = n;
    }
    Grid(other)
}

// A grid with these numbers in a namespace and 0 in all others.
pub fn only(ns: usize, inserts: u32, updates: u32, tombstones: u32) -> Grid {
    let with_inserts = with(EMPTY, 0, ns, inserts);
    with(with(with_inserts, 1, ns, updates), 2, ns, tombstones)
}

fn under(
    rt: &impl Print,
    region: &[u8],
    file: LogFile,
    expected: Result<Grid, Stopped>,
) -> io::Result<()> {
    print!(rt; "  {}, counts in {} bytes", File(file), region.len())?;
    let answered = counts::count_entries(region, file).map(Grid);
    judge::answer(rt, answered, expected, "request 9")?;
    if expected.is_err() {
        print!(rt; "  and without a grid")?;
        judge::holds(rt, answered.is_err(), "request 9")?;
    }
    Ok(())
}

pub fn counted(rt: &impl Print, region: &[u8], expected: Grid) -> io::Result<()> {
    under(rt, region, sample::FILE, Ok(expected))
}

// The documents' three entries, cut and changed.
fn of_three(rt: &impl Print, three: &[u8; 48]) -> io::Result<()> {
    println!(rt; "counts of insert, update and tombstone in 48 bytes, whole and cut")?;
    counted(rt, three, only(1, 1, 1, 1))?;
    counted(rt, &three[..42], only(1, 1, 1, 1))?;
    counted(rt, &three[..41], only(1, 1, 1, 0))?;
    counted(rt, &three[..39], only(1, 1, 1, 0))?;
    counted(rt, &three[..13], only(1, 1, 0, 0))?;
    counted(rt, &three[..12], EMPTY)?;
    counted(rt, &three[..8], EMPTY)?;
    counted(rt, &three[..0], EMPTY)
}

fn damaged(rt: &impl Print) -> io::Result<()> {
    println!(rt;
        "counts, the update's value, its mark, its namespace changed, and nothing but zeros"
    )?;
    counted(rt, &sample::changed(24, 0x32), only(1, 1, 0, 1))?;
    counted(rt, &sample::changed(16, 0xc0), only(1, 1, 0, 1))?;
    counted(rt, &sample::changed(19, 0x42), only(1, 1, 0, 1))?;
    counted(rt, &[0u8; 48], EMPTY)
}

// 10, whatever was counted before it. Fewer than 8 bytes left end the walk.
fn unknown(rt: &impl Print, third: &[u8; 48]) -> io::Result<()> {
    println!(rt; "counts, the type of one entry changed to 3")?;
    under(
        rt,
        &sample::changed(3, 0xc1),
        sample::FILE,
        Err(Stopped::UnknownAt(0)),
    )?;
    under(
        rt,
        &sample::changed(19, 0xc1),
        sample::FILE,
        Err(Stopped::UnknownAt(16)),
    )?;
    under(rt, third, sample::FILE, Err(Stopped::UnknownAt(32)))?;
    under(rt, &third[..40], sample::FILE, Err(Stopped::UnknownAt(32)))?;
    counted(rt, &third[..39], only(1, 1, 1, 0))
}

fn versions(rt: &impl Print, three: &[u8]) -> io::Result<()> {
    println!(rt; "counts in version 2 and in neither version")?;
    let region = sample::THREE_IN_VERSION_2;
    under(rt, &region, file(2, 7), Ok(only(1, 1, 1, 1)))?;
    under(rt, &region, file(2, 16777223), Ok(only(1, 1, 1, 1)))?;
    under(rt, &region, file(2, 8), Ok(EMPTY))?;
    under(rt, &region, file(1, 7), Ok(EMPTY))?;
    under(rt, three, file(2, 0), Ok(only(1, 1, 1, 1)))?;
    under(rt, three, file(2, 7), Ok(EMPTY))?;
    let neither = Err(Stopped::Refused(Refusal::WrongHeader));
    under(rt, three, file(0, 7), neither)?;
    under(rt, three, file(3, 7), neither)?;
    under(rt, three, file(4294967297, 7), neither)?;
    let erased = [0xffu8; 48];
    under(rt, &erased, file(2, 10872893), Err(Stopped::UnknownAt(32)))?;
    under(rt, &erased, file(3, 10872893), neither)
}

// One entry more of a type in a namespace. That a tombstone has an append of its own is known here
// alone.
fn add(region: &mut [u8], used: usize, kind: usize, ns: usize) -> Result<usize, Refusal> {
    match kind {
        2 => append::append_tombstone(region, sample::FILE, used, ns as u64, b"A7"),
        _ => {
            let asked = sample::item(kind as u64, ns as u64, b"9");
            append::append_data(region, sample::FILE, used, asked)
        }
    }
}

fn counts_as(region: &[u8], expected: Grid) -> bool {
    counts::count_entries(region, sample::FILE).map(Grid) == Ok(expected)
}

// One entry by itself.
fn alone(kind: usize, ns: usize) -> bool {
    let mut region = [0u8; 16];
    add(&mut region, 0, kind, ns).is_ok() && counts_as(&region, with(EMPTY, kind, ns, 1))
}

fn alone_in_each_namespace(kind: usize) -> bool {
    (0..64).all(|ns| alone(kind, ns))
}

// All three types in every namespace, 192 entries in as many lines.
fn add_all(region: &mut [u8]) -> Result<usize, Refusal> {
    let mut used = 0;
    for kind in 0..3 {
        for ns in 0..64 {
            used = add(region, used, kind, ns)?;
        }
    }
    Ok(used)
}

// That, and then the same with one line more, which has its mark, 0x5A1880, and type 3.
fn every_kind(rt: &impl Print) -> io::Result<()> {
    let mut region = [0; 3088];
    let added = add_all(&mut region);
    print!(rt; "  all together, one in every cell")?;
    judge::holds(rt, added.is_ok() && counts_as(&region, FULL), "request 9")?;
    sample::change(&mut region, 3072, 0x80);
    sample::change(&mut region, 3073, 0x18);
    sample::change(&mut region, 3074, 0x5a);
    sample::change(&mut region, 3075, 0xc1);
    under(rt, &region, sample::FILE, Err(Stopped::UnknownAt(3072)))
}

fn kinds(rt: &impl Print) -> io::Result<()> {
    println!(rt; "counts of every type in every namespace")?;
    print!(rt; "  an insert by itself, in each namespace")?;
    judge::holds(rt, alone_in_each_namespace(0), "request 9")?;
    print!(rt; "  an update by itself, in each namespace")?;
    judge::holds(rt, alone_in_each_namespace(1), "request 9")?;
    print!(rt; "  a tombstone by itself, in each namespace")?;
    judge::holds(rt, alone_in_each_namespace(2), "request 9")
}

pub fn trials(rt: &impl Print) -> io::Result<()> {
    of_three(rt, &sample::THREE)?;
    damaged(rt)?;
    unknown(rt, &sample::changed(35, 0xc1))?;
    versions(rt, &sample::THREE)?;
    kinds(rt)?;
    every_kind(rt)
}
