// Holds the checksum to the catalogue's entry CRC-16/IBM-3740: its check value, which is the sum of
// "123456789", taken whole and in two parts at each place, and its start value, the sum of no bytes.
#![tactic(auto)]

use std::io;

const CHECK: u16 = 0x29b1;

const INIT: u16 = 0xffff;

// Ends a line that names a run: its sum, what the catalogue says, and whether they agree.
fn compare(out: &impl Print, sum: u16, catalogue: u16) -> io::Result<()> {
    let verdict = if sum == catalogue {
        "agrees"
    } else {
        "DIFFERS"
    };
    println!(out; "  {sum:04x}  {catalogue:04x}  {verdict}")
}

fn whole(out: &impl Print, digits: &[u8]) -> io::Result<()> {
    print!(out; "\"")?;
    out.write_all(digits)?;
    print!(out; "\"     ")?;
    compare(out, checksum::hash(digits), CHECK)
}

fn in_two(out: &impl Print, first: &[u8], rest: &[u8]) -> io::Result<()> {
    print!(out; "\"")?;
    out.write_all(first)?;
    print!(out; "\" + \"")?;
    out.write_all(rest)?;
    print!(out; "\"")?;
    compare(out, checksum::update(checksum::hash(first), rest), CHECK)
}

fn at_each_place(out: &impl Print, digits: &[u8]) -> io::Result<()> {
    for at in 0..=digits.len() {
        in_two(out, &digits[..at], &digits[at..])?;
    }
    Ok(())
}

fn main(rt: HostRuntime) -> io::Result<()> {
    let digits = b"123456789";
    println!(rt;
        "CRC-16/IBM-3740 of a run of bytes, what the catalogue says of it, and whether they agree:"
    )?;
    whole(&rt, digits)?;
    at_each_place(&rt, digits)?;
    print!(rt; "no bytes        ")?;
    compare(&rt, checksum::hash(b""), INIT)
}
