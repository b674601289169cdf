// The weekend, replayed on real bytes. A generator logs the first number of each block of a hundred
// before it hands the block out, and at boot goes on behind the newest block in its log. In each of
// two logs one entry in the middle is bad. The boot rule of the home-made tool, to stop at the
// first torn entry, and the listing go over the same bytes, and what each takes is written side by
// side: under the old rule blocks are handed out a second time, under the listing none.
#![tactic(auto)]

use answers::{LogFile, Refusal};
use append::Item;
use card::Fault;
use entry::Entry;
use std::io;

// Both sites' cards have files of version 1, whose ordinal no mark depends on.
const FILE: LogFile = LogFile {
    version: 1,
    ordinal: 1,
};

// The newest entry that each rule takes: the tool's, which stops at the first torn entry, and the
// listing.
#[derive(Clone, Copy)]
struct Newest {
    old: Option<Entry>,
    new: Option<Entry>,
}

// Logs a block and answers the new used count.
fn log_block(region: &mut [u8], used: usize, first: &[u8]) -> Result<usize, Refusal> {
    let block = Item {
        kind: entry::INSERT,
        ns: 1,
        key: b"block",
        value: first,
    };
    append::append_data(region, FILE, used, block)
}

// A line of the table: the entry, and whether the old rule still takes it.
fn row(out: &impl Print, region: &[u8], e: Entry, stopped: bool) -> io::Result<()> {
    let old = if stopped { "not seen" } else { "taken" };
    print!(out; "{:3}  block ", e.offset)?;
    out.write_all(scan::value_of(region, e))?;
    println!(out; "       {old:22} taken")
}

// The whole log: sixteen entries at the most, and the logs here have fewer.
fn boot(out: &impl Print, region: &[u8], bound: usize) -> Result<Newest, Fault> {
    let mut newest = Newest {
        old: None,
        new: None,
    };
    let mut from = 0;
    let mut stopped = false;
    for _ in 0..16 {
        let Some(e) = scan::walk(region, FILE, bound, from)? else {
            break;
        };
        // an entry that doesn't begin at the line behind the last one has something bad before it
        if 16 <= e.offset.saturating_sub(from) {
            println!(out; "     a torn entry    stops here             passed over")?;
            stopped = true;
        }
        row(out, region, e, stopped)?;
        if !stopped {
            newest.old = Some(e);
        }
        newest.new = Some(e);
        from = e.end;
    }
    Ok(newest)
}

// The first number of the newest block that a rule takes. Where it takes none, nothing is written.
fn first_of(region: &[u8], newest: Option<Entry>) -> &[u8] {
    newest.map_or(&[], |e| scan::value_of(region, e))
}

// How many blocks there are up to the one with this first number, or none where there is no number:
// the first digit counts the blocks before it.
fn blocks_up_to(first: &[u8]) -> u8 {
    first
        .first()
        .map_or(0, |digit| digit.saturating_sub(b'0') + 1)
}

// How many blocks lie behind the newest one up to the last: they were handed out before the boot.
fn handed_out_twice(newest: &[u8], last: &[u8]) -> u8 {
    blocks_up_to(last).saturating_sub(blocks_up_to(newest))
}

fn compare(out: &impl Print, region: &[u8], last: &[u8]) -> Result<(), Fault> {
    let bound = tail::used_bound(region)?;
    println!(out; "offset               stop at a torn entry   listing")?;
    let newest = boot(out, region, bound)?;
    let old = first_of(region, newest.old);
    let new = first_of(region, newest.new);
    print!(out; "goes on behind       ")?;
    out.write_all(old)?;
    print!(out; "                    ")?;
    out.write_all(new)?;
    let under_old = handed_out_twice(old, last);
    let under_new = handed_out_twice(new, last);
    println!(out; "\nhanded out twice     {under_old} blocks               {under_new} blocks")?;
    let end = tail::durable_end(region, FILE, bound).end?;
    println!(out; "durable end          {end}\n")?;
    Ok(())
}

// One byte of the third entry's value goes bad, long after it was written.
fn north(out: &impl Print) -> Result<(), Fault> {
    let mut region = [0; 256];
    let mut used = 0;
    for first in [b"000", b"100", b"200", b"300", b"400", b"500"] {
        used = log_block(&mut region, used, first)?;
    }
    region[73] = b'7';
    println!(out; "Site North: one byte of block 200's entry went bad on the card.")?;
    compare(out, &region, b"500")
}

// The power goes while the third entry is written: only its first nine bytes came. The block is
// logged once more behind them.
fn south(out: &impl Print) -> Result<(), Fault> {
    let mut region = [0; 256];
    let mut used = 0;
    for first in [b"000", b"100", b"200"] {
        used = log_block(&mut region, used, first)?;
    }
    region[73..96].fill(0);
    used = tail::used_bound(&region)?;
    for first in [b"200", b"300", b"400"] {
        used = log_block(&mut region, used, first)?;
    }
    println!(out;
        "Site South: the power went while block 200 was logged. It was logged once more."
    )?;
    compare(out, &region, b"400")
}

fn weekend(out: &impl Print) -> Result<(), Fault> {
    println!(out; "A block's first number is logged before the block is handed out.\n")?;
    north(out)?;
    south(out)
}

fn main(rt: HostRuntime) -> io::Result<()> {
    card::finish(&rt, weekend(&rt))
}
