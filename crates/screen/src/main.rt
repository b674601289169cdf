// Document 02, request 9: the counts for the service screen. Reads a card from standard input, header
// and data together, and writes how many entries of each type stand in each namespace up to the used
// bound: a line for each namespace that has any, ascending, then how many there are in all.
//
// After 1, 2 or 3, and after 10 with its place, the `refused` line is the only one, since then there
// is no grid. A card without entries has the heading and `entries 0`.
#![tactic(auto)]

ghost use Rattle.std.specs.Prelude.{◌≡◌, ◌+◌, ◌<◌, ◌≤◌, length, IfOk};
ghost use Rattle.entry.specs.Words.{mark_of};
ghost use Rattle.scan.specs.Listing.{list};
ghost use Rattle.tail.specs.Tail.{used_bound};
ghost use Rattle.counts.specs.Totals.{cell, total};

use answers::LogFile;
use card::Fault;
use std::{fmt, io};

// A column of the grid: how many entries of each type stand in one namespace.
#[derive(Drop)]
struct Column {
    inserts: u64,
    updates: u64,
    tombstones: u64,
}

impl fmt::Display for Column {
    fn fmt<W: fmt::Write>(&self, f: &mut fmt::Formatter<W>) -> fmt::Result {
        write!(f, "{} {} {}", self.inserts, self.updates, self.tombstones)
    }
}

// The kind is a row of the grid, which the documents have as an array of arrays.
fn count_in(grid: [[u32; 64]; 3], kind: usize, ns: usize) -> u64
    requires { (kind < 3) × (ns < 64) }
    ensures { (result ≡ cell grid kind ns) × (result < 4294967296) }
{
    u64::from(grid[kind][ns])
}

fn column_of(grid: [[u32; 64]; 3], ns: usize) -> Column
    requires { ns < 64 }
    ensures cells { (result.inserts ≡ cell grid 0 ns) × (result.updates ≡ cell grid 1 ns) × (result.tombstones ≡ cell grid 2 ns) }
    ensures bounded { result.inserts + result.updates + result.tombstones < 12884901888 }
{
    Column {
        inserts: count_in(grid, 0, ns),
        updates: count_in(grid, 1, ns),
        tombstones: count_in(grid, 2, ns),
    }
}

// The line of a namespace, if an entry stands in it. Answers how many do.
fn write_column(out: &impl Print, ns: usize, column: Column) -> io::Result<u64>
    requires { column.inserts + column.updates + column.tombstones < 12884901888 }
    ensures { IfOk result (λ entries. entries ≡ column.inserts + column.updates + column.tombstones) }
{
    let entries = column.inserts + column.updates + column.tombstones;
    if 0 < entries {
        println!(out; "{ns} {column}")?;
    }
    Ok(entries)
}

// A line for each namespace that has entries. Answers how many entries the lines tell together, which
// are all that the grid has: no cell is left out.
fn write_columns(out: &impl Print, grid: [[u32; 64]; 3]) -> io::Result<u64>
    ensures { IfOk result (λ told. told ≡ total grid) }
{
    let mut told: u64 = 0;
    for ns in 0..64 {
        told += write_column(out, ns, column_of(grid, ns))?;
    }
    Ok(told)
}

// The last line. No number is written there that isn't the listing's length: callers prove that it is.
// Region and file are lent for that promise alone.
fn write_entries(out: &impl Print, region: &[u8], file: LogFile, entries: u64) -> io::Result<()>
    requires { entries ≡ length (list (mark_of file.version file.ordinal) region.now (used_bound region.now) 0).entries }
{
    println!(out; "entries {entries}")
}

// Of any file. With a refusal there is no grid.
#[tactic(auto, using(counts::proofs::Totals::told_total))]
fn show_data(out: &impl Print, region: &[u8], file: LogFile) -> Result<(), Fault> {
    let grid = counts::count_entries(region, file)?;
    println!(out; "ns insert update tombstone")?;
    let entries = write_columns(out, grid)?;
    write_entries(out, region, file, entries)?;
    Ok(())
}

fn show_card(out: &impl Print, card: &[u8]) -> Result<(), Fault> {
    let (file, region) = card::file_and_data(card)?;
    show_data(out, region, file)
}

fn main(rt: HostRuntime) -> io::Result<()> {
    let mut room = card::room();
    card::on_card(&rt, &mut room, "screen", |card| show_card(&rt, card))
}
