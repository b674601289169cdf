// Document 01, the region's tail: how far it is used, and where the last verified entry ends.
// `used_bound` and `durable_end` are the public operations, the second for a file of either version
// (document 02, request 10); the seeded one takes the mark's seed, and
// stands because docs/ENTRY-POINTS.md promises it. The durable end tells beside its
// answer how many lines were tried and how many bytes checksummed (request 8).
#![tactic(auto)]

ghost use Rattle.std.specs.Prelude.{◌≡◌, ◌≤◌, Err, length};
ghost use Rattle.answers.specs.Answers.{said, said_stopped};
ghost use Rattle.answers.specs.declared.Stopped.TheVariants.{Refused};
ghost use Rattle.entry.specs.Words.{mark_from};
ghost use Rattle.scan.specs.Listing.{list};
ghost use Rattle.scan.specs.Efforts.{no_effort, list_effort};
ghost use Rattle.tail.specs.Tail.{nonzero_to, used_of, durable, durable_of, durable_in};
ghost use Rattle.tail.specs.Efforts.{effort_of, effort_in, Within};

use answers::{LogFile, Refusal, Stopped};
use scan::{Effort, Listing};

// The durable end, or its refusal, and what it took. Refusals 2, 3 and 4 come before any line is
// tried; with 10 the refused line is counted too.
#[derive(Clone, Copy, Debug, PartialEq, Eq)]
pub struct CountedEnd {
    pub end: Result<usize, Stopped>,
    pub effort: Effort,
}

// A refusal that comes before any line is tried.
fn refused(refusal: Refusal) -> CountedEnd
    ensures { result ≡ record { end = Err (Refused refusal); effort = no_effort } }
{
    CountedEnd {
        end: Err(Stopped::Refused(refusal)),
        effort: Effort { lines: 0, bytes: 0 },
    }
}

// One past the last nonzero byte, or 0.
#[tactic(auto, using(crate::proofs::Bounds::nonzero_before, crate::proofs::Bounds::nonzero_none, crate::proofs::Bounds::nonzero_here))]
fn nonzero_to(region: &[u8]) -> usize
    ensures { (result ≡ nonzero_to region.now (length region.now)) × (result ≤ length region.now) }
{
    for i in (0..region.len()).rev() {
        if region[i] != 0 {
            return i + 1;
        }
    }
    0
}

// The same rounded up to a line. Refusal 3.
#[tactic(auto, unfolding(crate::specs::Tail::used_of, crate::specs::Tail::used_bound))]
pub fn used_bound(region: &[u8]) -> Result<usize, Refusal>
    ensures { said result ≡ used_of region.now }
{
    if answers::LARGEST_REGION < region.len() {
        return Err(Refusal::RegionTooLarge);
    }
    Ok(fields::align_up(nonzero_to(region)).min(region.len()))
}

// The last entry's end, rounded up to a line, or what stops the listing.
fn last_end(listing: &mut Listing) -> Result<usize, Stopped>
    ensures answer { said_stopped result ≡ durable 0 (list (mark_from listing.old.seed) listing.old.window.region.now listing.old.bound listing.old.from) }
    ensures effort { listing.new.effort ≡ list_effort (mark_from listing.old.seed) listing.old.window.region.now listing.old.bound 0 }
{
    let mut end = 0;
    while let Some(e) = listing.next()? {
        end = e.end;
    }
    Ok(fields::align_up(end))
}

pub fn seeded_durable_end(region: &[u8], seed: u32, bound: usize) -> CountedEnd
    ensures answer { said_stopped result.end ≡ durable_of (mark_from seed) region.now bound }
    ensures effort { result.effort ≡ effort_of (mark_from seed) region.now bound }
    ensures bounded { Within bound result.effort }
{
    match Listing::new(region, seed, bound) {
        Ok(mut listing) => {
            let end = last_end(&mut listing);
            CountedEnd {
                end,
                effort: listing.effort(),
            }
        }
        Err(refusal) => refused(refusal),
    }
}

// The last verified entry's end, rounded up to a line, in a file of this version and ordinal, with
// the lines tried and the bytes checksummed. Refusals 2, 3, 4, then 10 with its place.
pub fn durable_end(region: &[u8], file: LogFile, bound: usize) -> CountedEnd
    ensures answer { said_stopped result.end ≡ durable_in file.version file.ordinal region.now bound }
    ensures effort { result.effort ≡ effort_in file.version file.ordinal region.now bound }
    ensures bounded { Within bound result.effort }
{
    match entry::seed_in(file) {
        Ok(seed) => seeded_durable_end(region, seed, bound),
        Err(wrong_version) => refused(wrong_version),
    }
}
