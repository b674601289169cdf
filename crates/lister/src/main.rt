// Document 01, "The lister": reads a card from standard input, header and data together, and writes
// a line for each entry up to the used bound, then where the last of them ends. The header's version
// decides for the whole card (document 02, request 10).
//
// The heading is written once the header is accepted, so that after 1, 2 or 3 the `refused` line is
// the only one. A card with a header and no entry has the heading and `end 0`.
#![tactic(auto)]

ghost use Rattle.std.specs.Prelude.{◌≡◌, ◌≤◌, length, true, IfOk};
ghost use Rattle.answers.specs.Answers.{said_stopped};
ghost use Rattle.answers.specs.Limits.{largest_region};
ghost use Rattle.answers.specs.Versions.{is_version};
ghost use Rattle.entry.specs.Words.{mark_of};
ghost use Rattle.tail.specs.Tail.{durable_of};

use answers::{LogFile, Stopped};
use card::{Fault, Kind};
use std::io;

// A line for each entry. One walk serves for the lines and for the end: what it answers is proved to
// be what `tail::durable_end` answers, and each turn starts at a later offset, so the loop ends. It goes
// walk by walk, because the promise about the end is stated over walks (`turn_rest` of the crate tail).
fn list_entries(
    out: &impl Print,
    region: &[u8],
    file: LogFile,
    bound: usize,
) -> io::Result<Result<usize, Stopped>>
    requires { (length region.now ≤ largest_region) × (bound ≤ length region.now) × (is_version file.version ≡ true) }
    ensures { IfOk result (λ end. said_stopped end ≡ durable_of (mark_of file.version file.ordinal) region.now bound) }
{
    let mut from = 0;
    loop {
        match scan::walk(region, file, bound, from) {
            Ok(Some(e)) => {
                println!(out;
                    "{} {} {} {} {}",
                    e.offset,
                    Kind(e.kind),
                    e.ns,
                    e.klen,
                    e.vlen
                )?;
                from = e.end;
            }
            Ok(None) => return Ok(Ok(fields::align_up(from))),
            Err(stopped) => return Ok(Err(stopped)),
        }
    }
}

fn list_card(out: &impl Print, card: &[u8]) -> Result<(), Fault>
    requires { length card.now ≤ 65536 }
{
    let (file, region) = card::file_and_data(card)?;
    let bound = tail::used_bound(region)?;
    println!(out; "offset type ns klen vlen")?;
    let end = list_entries(out, region, file, bound)?;
    card::write_end(out, end)?;
    Ok(())
}

// The room holds the 65,536 bytes that a card may have.
fn main(rt: HostRuntime) -> io::Result<()> {
    let mut room = [0u8; 65536];
    card::on_card(&rt, &mut room, "lister", |card| list_card(&rt, card))
}
