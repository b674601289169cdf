// Document 01, "Trials": those that are not in the proved table run here, and with them each
// data-file operation's refusals at their limits, one below and one above. One line for a trial:
// what was asked, what was answered, and whether document 01, or the request of document 02 that it
// names, says so. The file `stdout` has them all.
//
// Left out: refusal 3, which needs a region of 268,435,457 bytes, more than a program's stack holds;
// and the mark 0 at offset 173,966,336, which the proved table has.
#![tactic(auto)]

mod appends;
mod efforts;
mod grids;
mod headers;
mod judge;
mod reads;
mod sample;
mod thirteen;
mod versions;
mod walks;

use std::io;

fn main(rt: HostRuntime) -> io::Result<()> {
    headers::trials(&rt)?;
    appends::trials(&rt)?;
    walks::trials(&rt)?;
    reads::trials(&rt)?;
    thirteen::trials(&rt)?;
    versions::trials(&rt)?;
    efforts::trials(&rt)?;
    grids::trials(&rt)
}
