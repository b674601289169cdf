// Document 01, "Read at a place": the data entry at a place, of which a hint says how many bytes to
// look at, with the type that was written (document 02, request 4). `read_at` is the public
// operation, for a file of either version (request 10); the seeded one takes the mark's seed. Both
// stand, because docs/ENTRY-POINTS.md promises them; place and hint stay two numbers, as C has them.
#![tactic(auto)]

ghost use Rattle.std.specs.Prelude.{◌≡◌};
ghost use Rattle.answers.specs.Answers.{said};
ghost use Rattle.entry.specs.Words.{mark_from};
ghost use Rattle.read.specs.Reading.{view_of, parse_of, read_of, read_in};

use answers::{LogFile, Refusal};
use entry::Entry;

// What the parser finds, which sees offsets from zero.
#[derive(Clone, Copy)]
pub struct Fields {
    pub kind: u64,
    pub ns: u64,
    pub klen: usize,
    pub vlen: usize,
}

// The data entry that begins with the view's first byte. The checksum is tested before the type.
#[tactic(auto, unfolding(crate::specs::Reading::parse_of, crate::specs::Reading::parse_tests, crate::specs::Reading::view_sum, crate::specs::Reading::fields_of))]
fn parse(view: &[u8], mark: u64) -> Result<Fields, Refusal>
    ensures { said result ≡ parse_of mark view.now }
{
    if view.len() < 8 {
        return Err(Refusal::EntryTooShort);
    }
    let word = fields::read::<4>(view, 0);
    if entry::word_mark(word) != mark {
        return Err(Refusal::WrongMark);
    }
    let klen = fields::read::<2>(view, 4) as usize;
    let vlen = fields::read::<2>(view, 6) as usize;
    let sum = 8 + vlen + klen;
    if view.len() < sum + 2 {
        return Err(Refusal::EntryTooShort);
    }
    if !entry::agrees(view, 0, sum) {
        return Err(Refusal::WrongChecksum);
    }
    let kind = entry::word_kind(word);
    if entry::UPDATE < kind {
        return Err(Refusal::TypeNotAllowed);
    }
    Ok(Fields {
        kind,
        ns: entry::word_namespace(word),
        klen,
        vlen,
    })
}

// The part of the region that is looked at.
#[tactic(auto, unfolding(crate::specs::Reading::view_of))]
fn view_of(region: &[u8], p: usize, hint: usize) -> &[u8]
    ensures { result.now ≡ view_of region.now p hint }
{
    let rest = region.get(p..).unwrap_or(&[]);
    &rest[..hint.min(rest.len())]
}

#[tactic(auto, using(crate::proofs::Views::view_room), unfolding(crate::specs::Reading::read_of))]
pub fn seeded_read_at(region: &[u8], seed: u32, p: usize, hint: usize) -> Result<Entry, Refusal>
    ensures { said result ≡ read_of (mark_from seed) region.now p hint }
{
    if answers::LARGEST_REGION < region.len() {
        return Err(Refusal::RegionTooLarge);
    }
    if p % 16 != 0 {
        return Err(Refusal::NotOnLine);
    }
    let mark = entry::mark_at(seed, p);
    let view = view_of(region, p, hint);
    let found = parse(view, mark)?;
    Ok(entry::placed(p, found.kind, found.ns, found.klen, found.vlen))
}

// The data entry at p, an insert or an update as its word says, in this file. Refusals 2, 3, 5, then
// 6, 7, 6, 8, 9.
#[tactic(auto, using(answers::proofs::Orders::refused_first, answers::proofs::Orders::accepted_unrefused))]
pub fn read_at(region: &[u8], file: LogFile, p: usize, hint: usize) -> Result<Entry, Refusal>
    ensures { said result ≡ read_in file.version file.ordinal region.now p hint }
{
    let seed = entry::seed_in(file)?;
    seeded_read_at(region, seed, p, hint)
}
