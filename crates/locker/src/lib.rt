// The C interface of the locker log: every public operation under a `locker_` name, for
// include/locker_log.h. Numbers pass as themselves and slices as a pointer and a length; the values
// of an answer go into out parameters. Each function answers document 01's number, 0 for accepted,
// and on a refusal leaves every out parameter and every lent byte as it was, but for the place that
// goes with 10, and the effort of a durable end that meets it.
#![tactic(auto)]

ghost use Rattle.std.specs.Prelude.{◌≡◌, true, [], length};
ghost use Rattle.answers.specs.Numbers.{number_of_stopped};
ghost use Rattle.answers.specs.Answers.{afterwards, number_said, value_out, place_out, said, refused_by};
ghost use Rattle.fields.specs.Runs.{over};
ghost use Rattle.checksum.specs.Catalogue.{crc16, crc_from};
ghost use Rattle.header.specs.Header.{read_of as header_read, write_of, header_of};
ghost use Rattle.read.specs.Reading.{read_in};
ghost use Rattle.append.specs.Bytes.{item};
ghost use Rattle.append.specs.Append.{data_kind};
ghost use Rattle.scan.specs.Parts.{part_of, part_start};
ghost use Rattle.tail.specs.Tail.{used_of};
ghost use Rattle.counts.specs.Counts.{counts_in};
ghost use Rattle.replay.specs.Limits.{data_limits, tombstone_limits};
ghost use Rattle.replay.specs.Start.{start_of};
ghost use Rattle.locker.specs.Outs.{start_out, start_found, eight, entry_out, AppendOut, WalkOut, two, EndOut};
ghost use Rattle.tracker.specs.State.{view};
ghost use Rattle.tracker.specs.Sound.{sound};
ghost use Rattle.tracker.specs.Least.{least_of};
ghost use Rattle.told.specs.Told.{FreshOut, ReserveOut, RecordOut, CompleteOut, AbandonOut, CheckpointOut, DrainOut, ClearOut, SlotOut};

use answers::{LogFile, Refusal, Stopped};
use append::Item;
use entry::Entry;
use scan::Effort;
use told::{Progress, Stored};
use tracker::{Least, Reserved, Slot, Tracker};

// The checksum of the bytes.
#[unsafe(no_mangle)]
pub extern "C" fn locker_hash(bytes: &[u8]) -> u16
    ensures { result ≡ crc16 bytes.now }
{
    checksum::hash(bytes)
}

// The checksum's register after more bytes, from any register.
#[unsafe(no_mangle)]
pub extern "C" fn locker_update(state: u16, bytes: &[u8]) -> u16
    ensures { result ≡ crc_from state bytes.now }
{
    checksum::update(state, bytes)
}

#[unsafe(no_mangle)]
pub extern "C" fn locker_read_header(header: &[u8], version: &mut u64, ordinal: &mut u64) -> u32
    ensures { (result ≡ number_said (header_read header.now)) × ((version.new, ordinal.new) ≡ value_out (header_read header.now) (version.old, ordinal.old)) }
{
    match header::read_header(header) {
        Ok(file) => {
            *version = file.version;
            *ordinal = file.ordinal;
            0
        }
        Err(refusal) => refusal.number(),
    }
}

#[unsafe(no_mangle)]
pub extern "C" fn locker_write_header(lent: &mut [u8], version: u64, ordinal: u64) -> u32
    ensures { (result ≡ number_said (write_of lent.old version)) × (lent.new ≡ afterwards (write_of lent.old version) lent.old (over lent.old 0 (header_of version ordinal))) }
{
    answers::verdict_number(header::write_header(lent, LogFile { version, ordinal }))
}

// The number of an answer that is a place or a count, which goes to the out parameter.
fn store(answer: Result<usize, Refusal>, out: &mut u64) -> u32
    ensures { (result ≡ number_said (said answer)) × (out.new ≡ value_out (said answer) out.old) }
{
    match answer {
        Ok(n) => {
            *out = n as u64;
            0
        }
        Err(refusal) => refusal.number(),
    }
}

// An entry as eight numbers, in the order of its struct: C has it so.
fn eight(e: Entry) -> [u64; 8]
    ensures { result ≡ eight e }
{
    let offset = e.offset as u64;
    let klen = e.klen as u64;
    let vlen = e.vlen as u64;
    let vplace = e.vplace as u64;
    let kplace = e.kplace as u64;
    let end = e.end as u64;
    [offset, e.kind, e.ns, klen, vlen, vplace, kplace, end]
}

#[unsafe(no_mangle)]
pub extern "C" fn locker_read_at(
    region: &[u8],
    version: u64,
    ordinal: u64,
    p: usize,
    hint: usize,
    entry: &mut [u64; 8],
) -> u32
    ensures { (result ≡ number_said (read_in version ordinal region.now p hint)) × (entry.new ≡ entry_out (read_in version ordinal region.now p hint) entry.old) }
{
    match read::read_at(region, LogFile { version, ordinal }, p, hint) {
        Ok(e) => {
            *entry = eight(e);
            0
        }
        Err(refusal) => refusal.number(),
    }
}

// The number of what stopped a walk. The place that goes with 10 goes to its out parameter.
fn store_stopped(stopped: Stopped, place: &mut u64) -> u32
    ensures { (result ≡ number_of_stopped stopped) × (place.new ≡ place_out {A = Unit {0}} (refused_by stopped) place.old) }
{
    if let Stopped::UnknownAt(p) = stopped {
        *place = p as u64;
    }
    stopped.number()
}

#[unsafe(no_mangle)]
pub extern "C" fn locker_append_data(
    region: &mut [u8],
    version: u64,
    ordinal: u64,
    used: usize,
    kind: u64,
    ns: u64,
    key: &[u8],
    value: &[u8],
    next: &mut u64,
) -> u32
    ensures { AppendOut version ordinal region.old used (data_kind kind) (item kind ns key.now value.now) result region.new next.old next.new }
{
    let asked = Item {
        kind,
        ns,
        key,
        value,
    };
    let answer = append::append_data(region, LogFile { version, ordinal }, used, asked);
    store(answer, next)
}

#[unsafe(no_mangle)]
pub extern "C" fn locker_append_tombstone(
    region: &mut [u8],
    version: u64,
    ordinal: u64,
    used: usize,
    ns: u64,
    key: &[u8],
    next: &mut u64,
) -> u32
    ensures { AppendOut version ordinal region.old used true (item 2 ns key.now []) result region.new next.old next.new }
{
    let answer = append::append_tombstone(region, LogFile { version, ordinal }, used, ns, key);
    store(answer, next)
}

// The next verified entry: `found` is 1 and the entry is told, or `found` is 0 at End.
#[unsafe(no_mangle)]
pub extern "C" fn locker_walk(
    region: &[u8],
    version: u64,
    ordinal: u64,
    bound: usize,
    offset: usize,
    entry: &mut [u64; 8],
    found: &mut u64,
    place: &mut u64,
) -> u32
    ensures { WalkOut version ordinal region.now bound offset result entry.old entry.new found.old found.new place.old place.new }
{
    match scan::walk(region, LogFile { version, ordinal }, bound, offset) {
        Ok(Some(e)) => {
            *entry = eight(e);
            *found = 1;
            0
        }
        Ok(None) => {
            *found = 0;
            0
        }
        Err(stopped) => store_stopped(stopped, place),
    }
}

// Where `len` bytes from `at` on begin in the region and how many they are: `at` and `len`, or 0
// and 0 where they run past its end. With an entry's kplace and klen it is its key, with its vplace
// and vlen its value.
#[unsafe(no_mangle)]
pub extern "C" fn locker_part(
    region: &[u8],
    at: usize,
    len: usize,
    start: &mut u64,
    count: &mut u64,
)
    ensures { (start.new ≡ part_start region.now at len) × (count.new ≡ length (part_of region.now at len)) }
{
    let part = scan::part_of(region, at, len);
    *count = part.len() as u64;
    *start = scan::part_start(region, at, len) as u64;
}

#[unsafe(no_mangle)]
pub extern "C" fn locker_used_bound(region: &[u8], bound: &mut u64) -> u32
    ensures { (result ≡ number_said (used_of region.now)) × (bound.new ≡ value_out (used_of region.now) bound.old) }
{
    store(tail::used_bound(region), bound)
}

// Lines tried and bytes checksummed as two numbers, in the order of their struct: C has it so.
fn two(effort: Effort) -> [u64; 2]
    ensures { result ≡ two effort }
{
    [effort.lines as u64, effort.bytes as u64]
}

#[unsafe(no_mangle)]
pub extern "C" fn locker_durable_end(
    region: &[u8],
    version: u64,
    ordinal: u64,
    bound: usize,
    end: &mut u64,
    place: &mut u64,
    effort: &mut [u64; 2],
) -> u32
    ensures { EndOut version ordinal region.now bound result end.old end.new place.old place.new effort.old effort.new }
{
    let counted = tail::durable_end(region, LogFile { version, ordinal }, bound);
    match counted.end {
        Ok(n) => {
            *end = n as u64;
            *effort = two(counted.effort);
            0
        }
        Err(Stopped::Refused(refusal)) => refusal.number(),
        Err(Stopped::UnknownAt(p)) => {
            *place = p as u64;
            *effort = two(counted.effort);
            Refusal::UnknownType.number()
        }
    }
}

// The entries of each type in each namespace, where the answer is 0: `grid[kind][ns]`.
#[unsafe(no_mangle)]
pub extern "C" fn locker_count_entries(
    region: &[u8],
    version: u64,
    ordinal: u64,
    grid: &mut [[u32; 64]; 3],
    place: &mut u64,
) -> u32
    ensures { (result ≡ number_said (counts_in version ordinal region.now)) × (grid.new ≡ value_out (counts_in version ordinal region.now) grid.old) × (place.new ≡ place_out (counts_in version ordinal region.now) place.old) }
{
    match counts::count_entries(region, LogFile { version, ordinal }) {
        Ok(counted) => {
            *grid = counted;
            0
        }
        Err(stopped) => store_stopped(stopped, place),
    }
}

// The replay limits of a data entry: 0 where it is accepted.
#[unsafe(no_mangle)]
pub extern "C" fn locker_replay_data(klen: usize, vlen: usize, maximum: usize) -> u32
    ensures { result ≡ data_limits klen vlen maximum }
{
    answers::verdict_number(replay::check_data(klen, vlen, maximum))
}

// The replay limits of a tombstone: 0 where it is accepted.
#[unsafe(no_mangle)]
pub extern "C" fn locker_replay_tombstone(klen: usize, maximum: usize) -> u32
    ensures { result ≡ tombstone_limits klen maximum }
{
    answers::verdict_number(replay::check_tombstone(klen, maximum))
}

// The file at which replay begins: `found` is 1 and the place is told, or `found` is 0 for an empty
// list.
#[unsafe(no_mangle)]
pub extern "C" fn locker_start_file(
    ordinals: &[u64],
    cursor: u64,
    place: &mut u64,
    found: &mut u64,
) -> u32
    ensures { (result ≡ number_said (start_of ordinals.now cursor)) × (place.new ≡ start_out (start_of ordinals.now cursor) place.old) × (found.new ≡ start_found (start_of ordinals.now cursor) found.old) }
{
    match replay::start_file(ordinals, cursor) {
        Ok(Some(at)) => {
            *place = at as u64;
            *found = 1;
            0
        }
        Ok(None) => {
            *found = 0;
            0
        }
        Err(refusal) => refusal.number(),
    }
}

// ---- the tracker
//
// Each call reads the tracker and the out parameter behind their pointers, has `told` work on the
// values, and stores what it hands back.

// What a call hands back, behind its two pointers.
fn keep<S: Drop, O: Drop>(told: Stored<S, O>, left: &mut S, out: &mut O) -> u32
    ensures { (result ≡ told.answer) × (left.new ≡ told.left) × (out.new ≡ told.out) }
{
    *left = told.left;
    *out = told.out;
    told.answer
}

#[unsafe(no_mangle)]
pub extern "C" fn locker_tracker_fresh(t: &mut Tracker) -> u32
    ensures { FreshOut t.new result }
{
    let told = told::fresh(*t);
    *t = told.left;
    told.answer
}

#[unsafe(no_mangle)]
pub extern "C" fn locker_tracker_is_sound(t: &Tracker) -> bool
    ensures { result ≡ sound (view t.now) }
{
    tracker::is_sound(*t)
}

#[unsafe(no_mangle)]
pub extern "C" fn locker_tracker_reserve(
    t: &mut Tracker,
    shard: usize,
    ordinal: u64,
    used: u64,
    capacity: u64,
    sealed: bool,
    length: u64,
    reserved: &mut Reserved,
) -> u32
    ensures { ReserveOut t.old shard ordinal used capacity sealed length reserved.old t.new reserved.new result }
{
    let told = told::reserve(
        *t, shard, ordinal, used, capacity, sealed, length, *reserved,
    );
    keep(told, t, reserved)
}

#[unsafe(no_mangle)]
pub extern "C" fn locker_tracker_record(
    t: &mut Tracker,
    shard: usize,
    delta: i8,
    number: &mut u64,
) -> u32
    ensures { RecordOut t.old shard delta number.old t.new number.new result }
{
    let told = told::record(*t, shard, delta, *number);
    keep(told, t, number)
}

#[unsafe(no_mangle)]
pub extern "C" fn locker_tracker_complete(
    t: &mut Tracker,
    shard: usize,
    number: u64,
    delta: i8,
    done: &mut u64,
) -> u32
    ensures { CompleteOut t.old shard number delta done.old t.new done.new result }
{
    let told = told::complete(*t, shard, number, delta, *done);
    keep(told, t, done)
}

#[unsafe(no_mangle)]
pub extern "C" fn locker_tracker_abandon(
    t: &mut Tracker,
    shard: usize,
    number: u64,
    done: &mut u64,
) -> u32
    ensures { AbandonOut t.old shard number done.old t.new done.new result }
{
    let told = told::abandon(*t, shard, number, *done);
    keep(told, t, done)
}

#[unsafe(no_mangle)]
pub extern "C" fn locker_tracker_checkpoint(
    t: &Tracker,
    ordinal: u64,
    used: u64,
    progress: &mut Progress,
) -> u32
    ensures { CheckpointOut t.now ordinal used progress.old progress.new result }
{
    let told = told::checkpoint(*t, ordinal, used, *progress);
    *progress = told.out;
    told.answer
}

#[unsafe(no_mangle)]
pub extern "C" fn locker_tracker_drain(t: &mut Tracker, limit: u64, sum: &mut i64) -> u32
    ensures { DrainOut t.old limit sum.old t.new sum.new result }
{
    let told = told::drain(*t, limit, *sum);
    keep(told, t, sum)
}

#[unsafe(no_mangle)]
pub extern "C" fn locker_tracker_clear(t: &mut Tracker) -> u32
    ensures { ClearOut t.old t.new result }
{
    let told = told::clear(*t);
    *t = told.left;
    told.answer
}

// One slot on its own, as document 01 has it lent.
#[unsafe(no_mangle)]
pub extern "C" fn locker_slot_abandon(slot: &mut Slot, number: u64, done: &mut u64) -> u32
    ensures { SlotOut slot.old number slot.new done.new result }
{
    let told = told::abandon_slot(*slot, number, *done);
    keep(told, slot, done)
}

// A run of slots of any length, as document 01 has it lent: the least place and the least open
// number. Nothing is refused.
#[unsafe(no_mangle)]
pub extern "C" fn locker_least_along(
    slots: &[Slot],
    ordinal: u64,
    used: u64,
    least: &mut Least,
) -> u32
    ensures { (result ≡ 0) × (least.new ≡ least_of ordinal used slots.now) }
{
    *least = slots::least_along(slots, ordinal, used);
    0
}
