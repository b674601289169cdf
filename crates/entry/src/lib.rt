// Document 01, "Bytes on the card": the mark, the entry word, and where an entry's parts lie.
//
// These are building blocks of the read at a place, the appends and the walk. Those that look at
// bytes ask of their caller that the bytes are there, and the prover holds every caller to that. The
// parts of a word and of an entry stay parameters of their own: each struct for them would serve once.
#![tactic(auto)]

ghost use Rattle.std.specs.Prelude.{◌≡◌, ◌+◌, ◌^◌, ◌<◌, ◌≤◌, length};
ghost use Rattle.answers.specs.Answers.{accepted, said, unless_refused};
ghost use Rattle.answers.specs.Versions.{version_refusal};
ghost use Rattle.entry.specs.Words.{mark_from, seed_of, word_of, word_mark, word_namespace, word_kind};
ghost use Rattle.entry.specs.Layout.{head_length, placed, sum_place, entry_at, agrees, intact};

use answers::{LogFile, Refusal, Version};

// Version 1's seed: the mark at offset 0.
pub const SEED: u32 = 0x5A17C0;

// The types that an entry word can hold. No append writes the last, and the walk stops at it. They are
// numbers and no enum, because `append_data`, `key_of` and `value_of` take any number for a type.
pub const INSERT: u64 = 0;

pub const UPDATE: u64 = 1;

pub const TOMBSTONE: u64 = 2;

pub const UNKNOWN: u64 = 3;

// Where an entry stands: its line, its type, its namespace, the lengths and places of key and
// value, and one past its checksum, not rounded up.
#[derive(Clone, Copy, Debug, PartialEq, Eq)]
pub struct Entry {
    pub offset: usize,
    pub kind: u64,
    pub ns: u64,
    pub klen: usize,
    pub vlen: usize,
    pub vplace: usize,
    pub kplace: usize,
    pub end: usize,
}

// The seed of a file's marks: version 2 adds the ordinal modulo 2^24 to version 1's.
#[tactic(auto, unfolding(crate::specs::Words::seed_of, answers::specs::Versions::version_refusal, answers::specs::Versions::is_version))]
pub fn seed_of(version: u64, ordinal: u64) -> u32
    ensures { result ≡ seed_of version ordinal }
{
    match Version::try_from(version) {
        Ok(Version::Two) => SEED + (ordinal % 0x100_0000) as u32,
        Ok(Version::One) | Err(_) => SEED,
    }
}

// The seed of a file's marks, or 2 where the file has neither version. Every call that needs a mark
// begins here.
pub fn seed_in(file: LogFile) -> Result<u32, Refusal>
    ensures { said result ≡ unless_refused (version_refusal file.version) (accepted (seed_of file.version file.ordinal)) }
{
    Version::try_from(file.version)?;
    Ok(seed_of(file.version, file.ordinal))
}

// The mark of the line at p, under a seed.
pub fn mark_at(seed: u32, p: usize) -> u64
    ensures { result ≡ mark_from seed p }
{
    ((p / 16) as u64 + seed as u64) & 0xff_ffff
}

// The entry word. Callers hand over a mark of 24 bits, a namespace of 6 and a type of 2.
pub fn word_of(mark: u64, ns: u64, kind: u64) -> u64
    requires { (mark < 2 ^ 24) × (ns < 2 ^ 6) × (kind < 2 ^ 2) }
    ensures { result ≡ word_of mark ns kind }
{
    (kind << 30) | (ns << 24) | mark
}

// The three parts of a word. Each is one line, and one function with shift and mask would be no plainer.
pub fn word_mark(word: u64) -> u64
    ensures { result ≡ word_mark word }
{
    word & 0xff_ffff
}

pub fn word_namespace(word: u64) -> u64
    ensures { result ≡ word_namespace word }
{
    (word >> 24) & 63
}

pub fn word_kind(word: u64) -> u64
    ensures { result ≡ word_kind word }
{
    (word >> 30) & 3
}

// The bytes before the value: a tombstone has no value length.
#[tactic(auto, unfolding(crate::specs::Layout::head_length))]
pub fn head_length(kind: u64) -> usize
    ensures { (result ≡ head_length kind) × (6 ≤ result) × (result ≤ 8) }
{
    if kind == TOMBSTONE {
        return 6;
    }
    8
}

// The entry at p with these fields. Callers have places and lengths that a slice holds.
#[tactic(auto, unfolding(crate::specs::Layout::placed))]
pub fn placed(p: usize, kind: u64, ns: u64, klen: usize, vlen: usize) -> Entry
    requires { p + klen + vlen + 16 < 2 ^ 64 }
    ensures { result ≡ placed p kind ns klen vlen }
{
    let vplace = p + head_length(kind);
    let kplace = vplace + vlen;
    Entry {
        offset: p,
        kind,
        ns,
        klen,
        vlen,
        vplace,
        kplace,
        end: kplace + klen + 2,
    }
}

// What the bytes at p say, right or wrong. The caller has seen that eight bytes are left from p on.
#[tactic(auto, unfolding(crate::specs::Layout::entry_at))]
pub fn entry_at(s: &[u8], p: usize) -> Entry
    requires { p + 8 ≤ length s.now }
    ensures { result ≡ entry_at s.now p }
{
    let word = fields::read::<4>(s, p);
    let kind = word_kind(word);
    let ns = word_namespace(word);
    let klen = fields::read::<2>(s, p + 4) as usize;
    if kind == TOMBSTONE {
        return placed(p, kind, ns, klen, 0);
    }
    let vlen = fields::read::<2>(s, p + 6) as usize;
    placed(p, kind, ns, klen, vlen)
}

// Whether the two bytes at `sum` are the checksum of those from `from` up to it. The caller has
// seen that all of them are there.
#[tactic(auto, unfolding(crate::specs::Layout::agrees))]
pub fn agrees(s: &[u8], from: usize, sum: usize) -> bool
    requires { (from ≤ sum) × (sum + 2 ≤ length s.now) }
    ensures { result ≡ agrees s.now from sum }
{
    fields::read::<2>(s, sum) == folds::sum(&s[from..sum]) as u64
}

// Whether the whole entry lies within s and its checksum agrees. Callers have the entry from
// `entry_at`.
#[tactic(auto, unfolding(crate::specs::Layout::intact))]
pub fn intact(s: &[u8], e: Entry) -> bool
    requires { (e.offset ≤ sum_place e) × (e.end ≡ sum_place e + 2) }
    ensures { result ≡ intact s.now e }
{
    e.end <= s.len() && agrees(s, e.offset, e.end - 2)
}
