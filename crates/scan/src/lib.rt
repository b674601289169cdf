// Document 01, "The walk": the next verified entry from an offset on, and its key and value as
// parts of the lent region. `walk`, `key_of` and `value_of` are the public operations, the walk for
// a file of either version (document 02, request 10); the seeded walk takes the mark's seed. The
// counted walk tells beside its answer what it took (request 8), and a listing goes by it through a
// whole region, as the durable end does.
#![tactic(auto)]

ghost use Rattle.std.specs.Prelude.{◌≡◌, List, ℕ, ◌^◌, ◌+◌, ◌-◌, ◌<◌, ◌≤◌, ◌≢◌, ◌↔◌, IsTrue, IfOk, IfSome, OnOk, MatchResult, length, min};
ghost use Rattle.std.specs.Coded.{Coded-set};
ghost use Rattle.answers.specs.Numbers.{number_of, number_of_verdict};
ghost use Rattle.answers.specs.Limits.{largest_region};
ghost use Rattle.answers.specs.declared.Stopped.TheVariants.{UnknownAt};
ghost use Rattle.fields.specs.Numbers.{field};
ghost use Rattle.entry.specs.Words.{mark_from, word_mark, word_kind};
ghost use Rattle.entry.specs.Layout.{length_of, sum_place, entry_at, intact};
ghost use Rattle.scan.specs.Walk.{said, walk_of, walk_in};
ghost use Rattle.scan.specs.Efforts.{plus, summed, most_per_line, said_counted, behind, counted_walk, list_effort};
ghost use Rattle.scan.specs.Inner.{walk_refusal, NextMarked, goes_on, IsFound, Tells};
ghost use Rattle.scan.specs.Parts.{part_of, part_start};

use answers::{LogFile, Refusal, Stopped};
use entry::Entry;
use window::Window;

// Lines whose mark a walk compared, and bytes that it checksummed.
#[derive(Clone, Copy, Debug, PartialEq, Eq)]
pub struct Effort {
    pub lines: usize,
    pub bytes: usize,
}

// What a walk answers, and what it took.
#[derive(Clone, Copy, Debug, PartialEq, Eq)]
pub struct CountedWalk {
    pub walked: Result<Option<Entry>, Stopped>,
    pub effort: Effort,
}

// From this many bytes on an entry is long. The window takes up to 510 bytes of a sum one by one,
// so a shorter one gains nothing from it.
const LONG: usize = 512;

// Refusals 3 and 4.
fn walkable(region: &[u8], bound: usize) -> Result<(), Refusal>
    ensures refuses { number_of_verdict result ≡ walk_refusal region.now bound }
    ensures fits { OnOk result ((length region.now ≤ largest_region) × (bound ≤ length region.now)) }
{
    if answers::LARGEST_REGION < region.len() {
        return Err(Refusal::RegionTooLarge);
    }
    if region.len() < bound {
        return Err(Refusal::BoundPastRegion);
    }
    Ok(())
}

// The lines up to this place have eight bytes, and begin before the bound.
fn lines_end(region: &[u8], bound: usize) -> usize
    ensures { result ≡ min bound (length region.now - 7) }
{
    bound.min(region.len().saturating_sub(7))
}

// Whether the line at p has the right mark. One mask over the difference of the two marks is less
// work than a mask over each, and a damaged card has many lines for which there is nothing else to do.
#[tactic(auto, using(crate::proofs::Marks::differs_not, crate::proofs::Marks::differs))]
fn is_marked(region: &[u8], seed: u32, p: usize) -> bool
    requires { p + 8 ≤ length region.now }
    ensures { IsTrue result ↔ (word_mark (field 4 region.now p) ≡ mark_from seed p) }
{
    entry::word_mark(fields::read::<4>(region, p) ^ entry::mark_at(seed, p)) == 0
}

// The next line from p on that has the right mark. A loop of its own, and a `while`: most lines of a
// damaged card have a wrong mark, and to make one loop of this one and its caller's, or a `for` by
// steps of 16, takes longer for each of them.
#[inline(never)]
fn next_marked(region: &[u8], seed: u32, bound: usize, p: usize) -> Option<usize>
    requires { length region.now ≤ largest_region }
    ensures { NextMarked (mark_from seed) region.now bound p result }
{
    let end = lines_end(region, bound);
    let mut q = p;
    while q < end {
        if is_marked(region, seed, q) {
            return Some(q);
        }
        q += 16;
    }
    None
}

// What the bytes of a line with the right mark say, right or wrong, or 10 with its place.
fn known_at(region: &[u8], p: usize) -> Result<Entry, Stopped>
    requires { p + 8 ≤ length region.now }
    ensures { MatchResult result (λ e. (word_kind (field 4 region.now p) ≢ 3) × (e ≡ entry_at region.now p)) (λ stopped. (word_kind (field 4 region.now p) ≡ 3) × (stopped ≡ UnknownAt p)) }
{
    if entry::word_kind(fields::read::<4>(region, p)) == entry::UNKNOWN {
        return Err(Stopped::UnknownAt(p));
    }
    Ok(entry::entry_at(region, p))
}

// How many bytes are checksummed to tell whether an entry is intact: all before the checksum, or
// none where the entry runs past the region's end. Callers have the entry from `entry::entry_at`.
fn summed(region: &[u8], e: Entry) -> usize
    requires { e.end ≡ e.offset + length_of e.kind e.klen e.vlen }
    ensures { result ≡ summed region.now e }
{
    if e.end <= region.len() {
        e.end - e.offset - 2
    } else {
        0
    }
}

// An entry's sum comes from the window where the entry is long and the walk has summed up more than
// twice the bytes that it has passed. Sums of whole entries are never more than what was passed, so no
// sound log comes near that, nor one with a damaged entry or two; a hostile card soon does, and from
// then on a sum costs the same however long its entry is.
fn by_window(from: usize, length: usize, spent: usize) -> bool
    requires { from < 2 ^ 63 }
    ensures { IsTrue result → 512 ≤ length }
{
    LONG <= length && 2 * from < spent
}

// Where a walk takes the sum of an entry from: of a listing the window, which goes on from walk to
// walk, and of one walk by itself the bytes.
trait Sums {
    ghost lent: { Self → List ℕ };

    // Whether an entry is intact. Callers have the entry from `entry::entry_at`.
    fn is_intact(&mut self, e: Entry, spent: usize) -> bool
        requires { (e.offset ≤ sum_place e) × (e.end ≡ sum_place e + 2) × (sum_place e ≤ e.offset + most_per_line) }
        ensures answer { result ≡ intact (lent self.old) e }
        ensures same { lent self.new ≡ lent self.old };
}

impl<'a> Sums for Window<'a> {
    ghost lent = { λ w. w.region.now };

    fn is_intact(&mut self, e: Entry, spent: usize) -> bool {
        let region = self.region;
        let sum = e.end - 2;
        if e.end <= region.len() && by_window(e.offset, sum - e.offset, spent) {
            return fields::read::<2>(region, sum) == self.sum_between(e.offset, sum) as u64;
        }
        entry::intact(region, e)
    }
}

// The bytes of a region by themselves.
#[derive(Drop)]
struct Bytes<'a>(&'a [u8]);

impl<'a> Sums for Bytes<'a> {
    ghost lent = { λ b. b.0.now };

    fn is_intact(&mut self, e: Entry, _spent: usize) -> bool {
        entry::intact(self.0, e)
    }
}

// The walk, and what it took on top of what was spent before. Callers have seen that neither 3 nor 4
// refuses, and spent no more than a whole region can take. The lines are counted by their places.
fn walk_lines<S: Sums>(
    region: &[u8],
    sums: &mut S,
    seed: u32,
    bound: usize,
    offset: usize,
    spent: Effort,
) -> CountedWalk
    requires { (length region.now ≤ largest_region) × (bound ≤ length region.now) × (spent.lines ≤ 16777216) × (spent.bytes ≤ 4503599627370496) × (S.lent sums.old ≡ region.now) }
    ensures answer { said_counted result ≡ behind spent (counted_walk (mark_from seed) region.now bound offset) }
    ensures same { S.lent sums.new ≡ S.lent sums.old }
{
    if bound <= offset {
        return CountedWalk {
            walked: Ok(None),
            effort: spent,
        };
    }
    let start = fields::align_up(offset);
    let mut bytes = spent.bytes;
    let mut p = start;
    // The documents name this form: a labelled walk over the lines, left from inside the trial of one.
    'lines: loop {
        'trial: {
            let Some(q) = next_marked(region, seed, bound, p) else {
                let lines = spent.lines
                    + (lines_end(region, bound).saturating_sub(start) + 15) / 16;
                break 'lines CountedWalk {
                    walked: Ok(None),
                    effort: Effort { lines, bytes },
                };
            };
            let lines = spent.lines + (q - start) / 16 + 1;
            match known_at(region, q) {
                Err(stopped) => {
                    break 'lines CountedWalk {
                        walked: Err(stopped),
                        effort: Effort { lines, bytes },
                    };
                }
                Ok(e) => {
                    let intact = sums.is_intact(e, bytes);
                    bytes += summed(region, e);
                    p = q + 16;
                    if !intact {
                        break 'trial;
                    }
                    break 'lines CountedWalk {
                        walked: Ok(Some(e)),
                        effort: Effort { lines, bytes },
                    };
                }
            }
        }
    }
}

// The same over the window's region, by its sums.
pub fn counted_walk(
    window: &mut Window,
    seed: u32,
    bound: usize,
    offset: usize,
    spent: Effort,
) -> CountedWalk
    requires { (length window.old.region.now ≤ largest_region) × (bound ≤ length window.old.region.now) × (spent.lines ≤ 16777216) × (spent.bytes ≤ 4503599627370496) }
    ensures answer { said_counted result ≡ behind spent (counted_walk (mark_from seed) window.old.region.now bound offset) }
    ensures region { window.new.region.now ≡ window.old.region.now }
{
    walk_lines(window.region, window, seed, bound, offset, spent)
}

// Where a listing goes on: behind the entry that was found. Where none was, there is nothing more.
fn goes_on(walked: Result<Option<Entry>, Stopped>, bound: usize) -> usize
    ensures { result ≡ goes_on bound walked }
{
    match walked {
        Ok(Some(e)) => e.end,
        Ok(None) | Err(_) => bound,
    }
}

// The listing of a region, entry by entry, for those that go through a region from 0 on: where its
// next walk begins, and what was spent up to there. The window goes on from walk to walk, so that
// no card makes them sum up the same bytes over and over. Its fields are public: whoever has come so
// far by walks of his own goes on from there.
#[derive(Clone, Copy)]
pub struct Listing<'a> {
    pub window: Window<'a>,
    pub seed: u32,
    pub bound: usize,
    pub from: usize,
    pub effort: Effort,
    pub ghost small: { length window.region.now ≤ largest_region },
    pub ghost inside: { bound ≤ length window.region.now },
    pub ghost along: { from ≤ length window.region.now },
    pub ghost rest: { plus effort (list_effort (mark_from seed) window.region.now bound from) ≡ list_effort (mark_from seed) window.region.now bound 0 } by { Coded-set effort-code _ _ },
}

impl<'a> Listing<'a> {
    // Before the first walk. Refusals 3 and 4.
    pub fn new(region: &'a [u8], seed: u32, bound: usize) -> Result<Listing<'a>, Refusal>
        ensures { MatchResult result (λ l. (walk_refusal region.now bound ≡ 0) × (l.window.region.now ≡ region.now) × (l.seed ≡ seed) × (l.bound ≡ bound) × (l.from ≡ 0)) (λ r. walk_refusal region.now bound ≡ number_of r) }
    {
        walkable(region, bound)?;
        Ok(Listing {
            window: Window::on(region),
            seed,
            bound,
            from: 0,
            effort: Effort { lines: 0, bytes: 0 },
        })
    }

    // The next entry, or what ends the listing: the walk from the last entry's end. Behind what ends
    // it there is nothing more.
    pub fn next(&mut self) -> Result<Option<Entry>, Stopped>
        ensures tells { Tells (mark_from self.old.seed) self.old.window.region.now self.old.bound self.old.from result self.new.from self.new.effort }
        ensures found { IfOk result (λ step. IfSome step (IsFound self.old.window.region.now self.old.bound self.old.from)) }
        ensures same { (self.new.window.region.now ≡ self.old.window.region.now) × (self.new.seed ≡ self.old.seed) × (self.new.bound ≡ self.old.bound) }
    {
        let step = counted_walk(
            &mut self.window,
            self.seed,
            self.bound,
            self.from,
            self.effort,
        );
        self.from = goes_on(step.walked, self.bound);
        self.effort = step.effort;
        step.walked
    }

    // What the walks took so far.
    pub fn effort(&self) -> Effort
        ensures { result ≡ self.now.effort }
    {
        self.effort
    }
}

// The next verified entry from `offset` on, up to `bound`, by the seed of the marks. Refusals 3, 4,
// then 10 with its place. One walk has no use for a window: to zero a window's 4,096 bytes takes longer
// than to find a short entry.
pub fn seeded_walk(
    region: &[u8],
    seed: u32,
    bound: usize,
    offset: usize,
) -> Result<Option<Entry>, Stopped>
    ensures { said result ≡ walk_of (mark_from seed) region.now bound offset }
{
    walkable(region, bound)?;
    let nothing = Effort { lines: 0, bytes: 0 };
    walk_lines(region, &mut Bytes(region), seed, bound, offset, nothing).walked
}

// The same in a file of this version and ordinal, where 2 comes first.
pub fn walk(
    region: &[u8],
    file: LogFile,
    bound: usize,
    offset: usize,
) -> Result<Option<Entry>, Stopped>
    ensures { said result ≡ walk_in file.version file.ordinal region.now bound offset }
{
    let seed = entry::seed_in(file)?;
    seeded_walk(region, seed, bound, offset)
}

// len bytes of the region from `at` on, or an empty part where they run past its end, as the documents
// have it.
pub fn part_of(region: &[u8], at: usize, len: usize) -> &[u8]
    ensures bytes { result.now ≡ part_of region.now at len }
    ensures lent { (result.ref_ptr.0 ≡ region.entry.ref_ptr.0) × (result.ref_ptr.1 ≡ region.entry.ref_ptr.1 + part_start region.now at len) }
{
    if region.len() < at {
        return &region[0..0];
    }
    if region.len() - at < len {
        return &region[0..0];
    }
    &region[at..at + len]
}

// Where that part begins in the region: C asks for it by itself, so it has the same two tests.
pub fn part_start(region: &[u8], at: usize, len: usize) -> usize
    ensures { result ≡ part_start region.now at len }
{
    if region.len() < at {
        return 0;
    }
    if region.len() - at < len {
        return 0;
    }
    at
}

// The key's own bytes in the region, empty where the places don't fit it: `lent` says that the part
// points into the caller's region, and where. Key and value are two public operations of one line each.
pub fn key_of(region: &[u8], e: Entry) -> &[u8]
    ensures bytes { result.now ≡ part_of region.now e.kplace e.klen }
    ensures lent { (result.ref_ptr.0 ≡ region.entry.ref_ptr.0) × (result.ref_ptr.1 ≡ region.entry.ref_ptr.1 + part_start region.now e.kplace e.klen) }
{
    let at = e.kplace;
    let len = e.klen;
    part_of(region, at, len)
}

// The value's own bytes in the region, empty for a tombstone and where the places don't fit it.
pub fn value_of(region: &[u8], e: Entry) -> &[u8]
    ensures bytes { result.now ≡ part_of region.now e.vplace e.vlen }
    ensures lent { (result.ref_ptr.0 ≡ region.entry.ref_ptr.0) × (result.ref_ptr.1 ≡ region.entry.ref_ptr.1 + part_start region.now e.vplace e.vlen) }
{
    let at = e.vplace;
    let len = e.vlen;
    part_of(region, at, len)
}
