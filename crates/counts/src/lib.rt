// Document 02, request 9: how many entries of each type stand in each namespace, for the service
// screen. `count_entries` is the public operation, for a file of either version (request 10); the
// seeded one takes the mark's seed, and stands because docs/ENTRY-POINTS.md promises it.
//
// The grid has a row for each type and in it a column for each namespace: `grid[kind][ns]`.
#![tactic(auto)]

ghost use Rattle.std.specs.Prelude.{◌≡◌};
ghost use Rattle.answers.specs.Answers.{said_stopped};
ghost use Rattle.entry.specs.Words.{mark_from};
ghost use Rattle.scan.specs.Listing.{list};
ghost use Rattle.counts.specs.Counts.{counts_listed, counts_of, counts_in};

use answers::{LogFile, Stopped};
use scan::Listing;

// Counts each entry of a listing that is at its first one.
fn count_listed(listing: &mut Listing) -> Result<[[u32; 64]; 3], Stopped>
    requires { listing.old.from ≡ 0 }
    ensures { said_stopped result ≡ counts_listed (list (mark_from listing.old.seed) listing.old.window.region.now listing.old.bound 0) }
{
    let mut grid = [[0u32; 64]; 3];
    while let Some(e) = listing.next()? {
        grid[e.kind as usize][e.ns as usize] += 1;
    }
    Ok(grid)
}

pub fn seeded_count_entries(region: &[u8], seed: u32) -> Result<[[u32; 64]; 3], Stopped>
    ensures { said_stopped result ≡ counts_of (mark_from seed) region.now }
{
    let bound = tail::used_bound(region)?;
    let mut listing = Listing::new(region, seed, bound)?;
    count_listed(&mut listing)
}

// The entries of each type in each namespace, in a file of this version and ordinal, of the region
// walked to its used bound. Refusals 2, 3, then 10 with its place.
pub fn count_entries(region: &[u8], file: LogFile) -> Result<[[u32; 64]; 3], Stopped>
    ensures { said_stopped result ≡ counts_in file.version file.ordinal region.now }
{
    let seed = entry::seed_in(file)?;
    seeded_count_entries(region, seed)
}
