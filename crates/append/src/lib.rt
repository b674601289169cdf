// Document 01, append: a data entry or a tombstone is written at the used count, and the new used
// count is the answer. `append_data` and `append_tombstone` are the public operations, for a file of
// either version (document 02, request 10); the seeded ones take the mark's seed. Both stand, because
// docs/ENTRY-POINTS.md promises them; a region and a seed stay two parameters, as C and the seeds have it.
#![tactic(auto)]

ghost use Rattle.std.specs.Prelude.{◌≡◌, true, [], ◌+◌, ◌%◌, ◌^◌, ◌<◌, ◌≤◌, length};
ghost use Rattle.answers.specs.Numbers.{number_of_verdict};
ghost use Rattle.answers.specs.Versions.{version_refusal};
ghost use Rattle.fields.specs.Numbers.{aligned};
ghost use Rattle.fields.specs.Runs.{over};
ghost use Rattle.entry.specs.Words.{mark_from, mark_of};
ghost use Rattle.entry.specs.Layout.{head_length, length_of};
ghost use Rattle.append.specs.Bytes.{item, head_of, covered_of, encoded};
ghost use Rattle.append.specs.Append.{Appends, append_refusal, data_kind};

use answers::{LogFile, Refusal};

// What an append is asked to write. A tombstone has an empty value.
#[derive(Clone, Copy)]
pub struct Item<'a> {
    pub kind: u64,
    pub ns: u64,
    pub key: &'a [u8],
    pub value: &'a [u8],
}

// The fields before the value; answers where the value begins.
fn put_head(region: &mut [u8], at: usize, word: u64, kind: u64, klen: usize, vlen: usize) -> usize
    requires { at + 8 ≤ length region.old }
    ensures { (region.new ≡ over region.old at (head_of word kind klen vlen)) × (result ≡ at + head_length kind) }
{
    fields::put::<4>(region, at, word);
    fields::put::<2>(region, at + 4, klen as u64);
    if kind == entry::TOMBSTONE {
        return at + 6;
    }
    fields::put::<2>(region, at + 6, vlen as u64);
    at + 8
}

// What the checksum covers; answers where the checksum goes.
fn put_covered(region: &mut [u8], at: usize, mark: u64, asked: Item) -> usize
    requires in_region { at + 8 + length asked.value.now + length asked.key.now ≤ length region.old }
    requires in_range { (mark < 2 ^ 24) × (asked.ns < 2 ^ 6) × (asked.kind < 2 ^ 2) }
    ensures { (region.new ≡ over region.old at (covered_of mark (item asked.entry.kind asked.entry.ns asked.entry.key.now asked.entry.value.now))) × (result ≡ at + head_length asked.entry.kind + length asked.entry.value.now + length asked.entry.key.now) }
{
    let word = entry::word_of(mark, asked.ns, asked.kind);
    let klen = asked.key.len();
    let vlen = asked.value.len();
    let vplace = put_head(region, at, word, asked.kind, klen, vlen);
    fields::put_run(region, vplace, asked.value);
    let kplace = vplace + vlen;
    fields::put_run(region, kplace, asked.key);
    kplace + klen
}

// A whole entry with its filling; answers the next place. The check below has seen that it fits.
fn put_entry(region: &mut [u8], seed: u32, at: usize, asked: Item) -> usize
    requires in_region { at + aligned (length_of asked.kind (length asked.key.now) (length asked.value.now)) ≤ length region.old }
    requires in_range { (at % 16 ≡ 0) × (asked.ns < 2 ^ 6) × (asked.kind < 2 ^ 2) }
    ensures { (region.new ≡ over region.old at (encoded (mark_from seed at) (item asked.entry.kind asked.entry.ns asked.entry.key.now asked.entry.value.now))) × (result ≡ at + aligned (length_of asked.entry.kind (length asked.entry.key.now) (length asked.entry.value.now))) }
{
    let mark = entry::mark_at(seed, at);
    let sum = put_covered(region, at, mark, asked);
    let crc = folds::sum(&region[at..sum]) as u64;
    fields::put::<2>(region, sum, crc);
    let end = sum + 2;
    let next = fields::align_up(end);
    fields::fill(region, end, next - end, 0xff);
    next
}

// The refusals in their order, before anything is written. `allowed` says whether the type is one
// that the append takes; the tests of the table (append_tests) have it so.
#[tactic(auto, unfolding(crate::specs::Append::append_refusal, crate::specs::Append::append_tests, entry::specs::Layout::length_of))]
fn check(capacity: usize, used: usize, allowed: bool, asked: Item) -> Result<(), Refusal>
    requires { capacity < 2 ^ 63 }
    ensures { number_of_verdict result ≡ append_refusal capacity used allowed asked.entry.kind asked.entry.ns (length asked.entry.key.now) (length asked.entry.value.now) }
{
    if answers::LARGEST_REGION < capacity {
        return Err(Refusal::RegionTooLarge);
    }
    if used % 16 != 0 {
        return Err(Refusal::NotOnLine);
    }
    if !allowed {
        return Err(Refusal::TypeNotAllowed);
    }
    if answers::LAST_NAMESPACE < asked.ns {
        return Err(Refusal::NamespaceTooLarge);
    }
    let klen = asked.key.len();
    if answers::LARGEST_KEY < klen {
        return Err(Refusal::KeyTooLong);
    }
    let vlen = asked.value.len();
    if answers::LARGEST_VALUE < vlen {
        return Err(Refusal::ValueTooLong);
    }
    let size = fields::align_up(entry::head_length(asked.kind) + vlen + klen + 2);
    if capacity < used || capacity - used < size {
        return Err(Refusal::NoSpace);
    }
    Ok(())
}

// Both appends. Each has this code as its own, where its type is known and what is asked stays in registers.
#[inline(always)]
fn append(
    region: &mut [u8],
    seed: u32,
    used: usize,
    allowed: bool,
    asked: Item,
) -> Result<usize, Refusal>
    requires { allowed ≡ true → asked.kind < 2 ^ 2 }
    ensures { Appends 0 (mark_from seed) region.old used allowed (item asked.entry.kind asked.entry.ns asked.entry.key.now asked.entry.value.now) result region.new }
{
    check(region.len(), used, allowed, asked)?;
    Ok(put_entry(region, seed, used, asked))
}

pub fn seeded_append_data(
    region: &mut [u8],
    seed: u32,
    used: usize,
    asked: Item,
) -> Result<usize, Refusal>
    ensures { Appends 0 (mark_from seed) region.old used (data_kind asked.entry.kind) (item asked.entry.kind asked.entry.ns asked.entry.key.now asked.entry.value.now) result region.new }
{
    append(region, seed, used, asked.kind < entry::TOMBSTONE, asked)
}

pub fn seeded_append_tombstone(
    region: &mut [u8],
    seed: u32,
    used: usize,
    ns: u64,
    key: &[u8],
) -> Result<usize, Refusal>
    ensures { Appends 0 (mark_from seed) region.old used true (item 2 ns key.now []) result region.new }
{
    let tombstone = Item {
        kind: entry::TOMBSTONE,
        ns,
        key,
        value: &key[0..0],
    };
    append(region, seed, used, true, tombstone)
}

// A data entry, type 0 or 1, in this file. Refusals 2, 3, 5, 9, 17, 11, 12, 13.
#[tactic(auto, using(crate::proofs::Answering::seed_refuses, crate::proofs::Answering::seed_passes))]
pub fn append_data(
    region: &mut [u8],
    file: LogFile,
    used: usize,
    asked: Item,
) -> Result<usize, Refusal>
    ensures { Appends (version_refusal file.version) (mark_of file.version file.ordinal) region.old used (data_kind asked.entry.kind) (item asked.entry.kind asked.entry.ns asked.entry.key.now asked.entry.value.now) result region.new }
{
    let seed = entry::seed_in(file)?;
    seeded_append_data(region, seed, used, asked)
}

// A tombstone, in this file. Refusals 2, 3, 5, 17, 11, 13.
#[tactic(auto, using(crate::proofs::Answering::seed_refuses, crate::proofs::Answering::seed_passes))]
pub fn append_tombstone(
    region: &mut [u8],
    file: LogFile,
    used: usize,
    ns: u64,
    key: &[u8],
) -> Result<usize, Refusal>
    ensures { Appends (version_refusal file.version) (mark_of file.version file.ordinal) region.old used true (item 2 ns key.now []) result region.new }
{
    let seed = entry::seed_in(file)?;
    seeded_append_tombstone(region, seed, used, ns, key)
}
