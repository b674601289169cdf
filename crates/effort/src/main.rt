// Document 02, request 8: how long a card can hold the boot. Reads a card from standard input, header
// and data together, and writes what the durable end up to the used bound takes: the lines that it
// tries and the bytes that it checksums, each beside the bound that is proved of it, and the end.
//
// After 1, 2 or 3 the `refused` line is the only one. With 10 the counts go up to and including the
// refused line.
#![tactic(auto)]

ghost use Rattle.std.specs.Prelude.{◌≡◌, ◌+◌, ◌*◌, ◌/◌, ◌≤◌, length};

use answers::LogFile;
use card::Fault;
use std::io;

// A count beside its bound, and in words what that bound is. No count is ever written beside a bound
// that it exceeds: callers prove that it doesn't.
fn write_count(
    out: &impl Print,
    name: &str,
    count: usize,
    most: usize,
    rule: &str,
) -> io::Result<()>
    requires { count ≤ most }
{
    println!(out; "{name} {count} of at most {most}, {rule}")
}

// "Lines tried are at most the bound divided by 16, rounded up"
fn most_lines(bound: usize) -> usize
    requires { bound ≤ 1048576 }
    ensures { result ≡ (bound + 15) / 16 }
{
    (bound + 15) / 16
}

// "bytes are at most 131,078 for each line tried"
fn most_bytes(lines: usize) -> usize
    requires { lines ≤ 65536 }
    ensures { result ≡ 131078 * lines }
{
    131078 * lines
}

// What the durable end up to the bound takes, and the end.
fn report_effort(out: &impl Print, region: &[u8], file: LogFile, bound: usize) -> io::Result<()>
    requires { bound ≤ 1048576 }
{
    let counted = tail::durable_end(region, file, bound);
    let effort = counted.effort;
    println!(out; "used bound {bound}")?;
    write_count(
        out,
        "lines tried",
        effort.lines,
        most_lines(bound),
        "the bound divided by 16 and rounded up",
    )?;
    write_count(
        out,
        "bytes checksummed",
        effort.bytes,
        most_bytes(effort.lines),
        "131078 for each line tried",
    )?;
    card::write_end(out, counted.end)
}

fn report_card(out: &impl Print, card: &[u8]) -> Result<(), Fault>
    requires { length card.now ≤ 1052672 }
{
    let (file, region) = card::file_and_data(card)?;
    let bound = tail::used_bound(region)?;
    report_effort(out, region, file, bound)?;
    Ok(())
}

fn main(rt: HostRuntime) -> io::Result<()> {
    let mut room = card::room();
    card::on_card(&rt, &mut room, "effort", |card| report_card(&rt, card))
}
