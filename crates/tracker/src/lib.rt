// Document 01, "Tracker", with document 02's request 6: reservations that are open, deltas that
// wait in the order of their numbers, and the checkpoint over both. One value goes in and comes
// back; any value and any numbers may come in. What is right stands in specs/, file by file as the
// operations are named here. The helpers take the value lent, or a queue's part of its arrays: one
// that takes the whole value would copy its five kilobytes at each call. Shard, number, ordinal, used
// count and delta stay parameters of their own, because C has them so.
#![tactic(auto)]

ghost use Rattle.std.specs.Prelude.{◌≡◌, true, ◌&&◌, ◌||◌, ◌+◌, ◌≤◌, ◌<◌, get_or, drop, length, ltb, leb, eqb, OnOk};
ghost use Rattle.std.specs.List.{list_all};
ghost use Rattle.answers.specs.Numbers.{number_of_verdict};
ghost use Rattle.answers.specs.Answers.{first_of};
ghost use Rattle.tracker.specs.State.{view, fresh_state, places, idle, queue, with_queue, joined, inserted};
ghost use Rattle.tracker.specs.Sound.{sound};
ghost use Rattle.tracker.specs.Least.{before, lesser_of, step_of, least_of};
ghost use Rattle.tracker.specs.Reserving.{reserve_tests, ReserveMet};
ghost use Rattle.tracker.specs.Recording.{record_tests, RecordMet};
ghost use Rattle.tracker.specs.Finishing.{finish_tests, CompleteMet, AbandonMet};
ghost use Rattle.tracker.specs.Checkpoints.{said_checkpoint, checkpoint_of};
ghost use Rattle.tracker.specs.Draining.{DrainMet};
ghost use Rattle.tracker.specs.Clearing.{ClearMet};
ghost use Rattle.tracker.specs.Inner.{Roomy, HasRoom, QueueOf, queue_from, Fronted, Summed, neighbours_ascend, numbers_below, place_behind, PutIn, FinishFree, ReserveFree, RecordFree};

use answers::{LARGEST_REGION, Refusal};

// A reservation's number, and the place that it holds. Number 0 is idle: C has this layout.
#[repr(C)]
#[derive(Clone, Copy)]
pub struct Slot {
    pub number: u64,
    pub ordinal: u64,
    pub offset: u64,
}

// What stands in each slot of a fresh or cleared tracker.
const IDLE: Slot = Slot {
    number: 0,
    ordinal: 0,
    offset: 0,
};

// Shard s waits at the places from 32 * s of the two flat arrays, as many as lengths[s] says, in
// the order of their numbers. What lies past a queue's length is no state. C has this layout, and the
// documents name the flat arrays.
#[repr(C)]
#[derive(Clone, Copy)]
pub struct Tracker {
    pub slots: [Slot; 16],
    pub numbers: [u64; 512],
    pub deltas: [i8; 512],
    pub lengths: [usize; 16],
    pub next: u64,
}

// What a call hands back: the value as it stands then, and what the call answers. A refusal leaves
// the value as it came.
#[derive(Clone, Copy)]
pub struct After<A> {
    pub tracker: Tracker,
    pub answer: Result<A, Refusal>,
}

// ---- fresh

#[tactic(auto, unfolding(crate::specs::State::view, crate::specs::State::queue_of))]
pub fn fresh() -> Tracker
    ensures { view result ≡ fresh_state }
{
    Tracker {
        slots: [IDLE; 16],
        numbers: [0; 512],
        deltas: [0; 512],
        lengths: [0; 16],
        next: 1,
    }
}

// ---- a shard's queue

impl Tracker {
    // The numbers of a shard's queue, and the deltas beside them.
    fn queue(&self, shard: usize) -> (&[u64], &[i8])
        requires { (shard < 16) × (get_or self.now.lengths shard 0 ≤ 32) }
        ensures { QueueOf self.now shard result.0.now result.1.now }
    {
        let base = shard * 32;
        let end = base + self.lengths[shard];
        (&self.numbers[base..end], &self.deltas[base..end])
    }

    // One delta more at the back of a shard's queue, for a number above all that wait there.
    fn push(&mut self, shard: usize, number: u64, delta: i8)
        requires { HasRoom self.old shard }
        ensures { view self.new ≡ joined (view self.old) shard number delta }
    {
        let count = self.lengths[shard];
        self.numbers[shard * 32 + count] = number;
        self.deltas[shard * 32 + count] = delta;
        self.lengths[shard] = count + 1;
    }

    // One delta more in a shard's queue, behind its equals.
    fn insert(&mut self, shard: usize, number: u64, delta: i8)
        requires { HasRoom self.old shard }
        ensures { view self.new ≡ inserted (view self.old) shard number delta }
    {
        let base = shard * 32;
        let end = base + self.lengths[shard];
        let (numbers, _) = self.queue(shard);
        let place = base + place_of(numbers, number);
        put_in(&mut self.numbers, place, end, number);
        put_in(&mut self.deltas, place, end, delta);
        self.lengths[shard] = end - base + 1;
    }

    // The first entries of a shard's queue go, and the others move to its front.
    fn remove_front(&mut self, shard: usize, gone: usize)
        requires { Roomy self.old × ((shard < 16) × (gone ≤ get_or self.old.lengths shard 0)) }
        ensures { Roomy self.new × (view self.new ≡ with_queue (view self.old) shard (drop gone (queue (view self.old) shard))) }
    {
        let base = shard * 32;
        let end = base + self.lengths[shard];
        self.numbers.copy_within(base + gone..end, base);
        self.deltas.copy_within(base + gone..end, base);
        self.lengths[shard] = end - base - gone;
    }
}

// Where a number goes among those of a queue: before the first larger one, so behind its equals.
fn place_of(numbers: &[u64], number: u64) -> usize
    ensures { result ≡ place_behind numbers.now number }
{
    numbers
        .iter()
        .position(|x| number < *x)
        .unwrap_or(numbers.len())
}

// A value goes in at a place; those from there to the end stand one place further.
fn put_in<T: Copy>(values: &mut [T], place: usize, end: usize, value: T)
    requires { (place ≤ end) × (end < length values.old) }
    ensures { PutIn values.old values.new place end value }
{
    values.copy_within(place..end, place + 1);
    values[place] = value;
}

// ---- soundness

// No number of a queue is above the one behind it; equal ones may stand side by side.
fn queue_ascends(numbers: &[u64]) -> bool
    ensures { result ≡ neighbours_ascend numbers.now }
{
    numbers.is_sorted_by(|a, b| a <= b)
}

// The numbers of a queue are all below the next number: they ascend, so the last one tells.
fn queue_below(numbers: &[u64], next: u64) -> bool
    requires { neighbours_ascend numbers.now ≡ true }
    ensures { result ≡ numbers_below numbers.now next }
{
    match numbers.last() {
        Some(last) => *last < next,
        None => true,
    }
}

// A shard's queue length and slot are sound.
fn head_sound(count: usize, held: u64, next: u64) -> bool
    ensures { result ≡ (leb (count + places held) 32 && (eqb held 0 || ltb held next)) }
{
    count <= 32 && (held == 0 || (held < next && count <= 31))
}

#[tactic(auto, using(crate::proofs::Sounds::sound_zero))]
pub fn is_sound(tracker: Tracker) -> bool
    ensures { result ≡ sound (view tracker) }
{
    let next = tracker.next;
    if next == 0 {
        return false;
    }
    for shard in 0..16 {
        if !head_sound(tracker.lengths[shard], tracker.slots[shard].number, next) {
            return false;
        }
        let (numbers, _) = tracker.queue(shard);
        if !queue_ascends(numbers) {
            return false;
        }
        if !queue_below(numbers, next) {
            return false;
        }
    }
    true
}

// ---- what several operations use

// How many deltas wait on a shard; none on one that isn't there, as the definitions have it.
fn waiting_on(lengths: &[usize], shard: usize) -> usize
    ensures { result ≡ get_or lengths.now shard 0 }
{
    lengths.get(shard).copied().unwrap_or(0)
}

// The number that a shard's slot has; 0 for a shard that isn't there, as the definitions have it.
fn number_on(slots: &[Slot], shard: usize) -> u64
    ensures { result ≡ (get_or slots.now shard idle).number }
{
    slots.get(shard).map_or(0, |slot| slot.number)
}

// The refusals of complete and of abandon, which lead those of reserve and of record too.
#[tactic(auto, unfolding(crate::specs::Finishing::finish_tests))]
fn finish_verdict(soundness: bool, shard: usize) -> Result<(), Refusal>
    ensures number { number_of_verdict result ≡ first_of (finish_tests soundness shard) }
    ensures passed { OnOk result (FinishFree soundness shard) }
{
    if !soundness {
        return Err(Refusal::NotSound);
    }
    if 15 < shard {
        return Err(Refusal::ShardTooLarge);
    }
    Ok(())
}

// ---- reserve

// What an accepted reserve answers: its number, its place, and the used count afterwards.
#[repr(C)]
#[derive(Clone, Copy, Debug, PartialEq, Eq)]
pub struct Reserved {
    pub number: u64,
    pub place: u64,
    pub used: u64,
}

// The refusals of reserve in the table's order. The sum of used count and length is never made
// before it is known to fit. The tests take numbers and not the value, because the table's tests
// (reserve_tests) are of numbers; so do those of record.
#[tactic(auto, using(crate::proofs::Finishes::led_refused), unfolding(crate::specs::Reserving::reserve_tests))]
fn reserve_verdict(
    soundness: bool,
    shard: usize,
    next: u64,
    waiting: usize,
    used: u64,
    capacity: u64,
    sealed: bool,
    length: u64,
) -> Result<(), Refusal>
    ensures number { number_of_verdict result ≡ first_of (reserve_tests soundness shard next waiting used capacity sealed length) }
    ensures passed { OnOk result (ReserveFree soundness shard next waiting used capacity length) }
{
    finish_verdict(soundness, shard)?;
    if next == u64::MAX {
        return Err(Refusal::NumbersUsedUp);
    }
    if waiting == 32 {
        return Err(Refusal::NoWaitingRoom);
    }
    if used % 16 != 0 || length % 16 != 0 || length == 0 {
        return Err(Refusal::NotOnLine);
    }
    if (LARGEST_REGION as u64) < capacity {
        return Err(Refusal::RegionTooLarge);
    }
    if sealed || capacity < used || capacity - used < length {
        return Err(Refusal::NoSpace);
    }
    Ok(())
}

pub fn reserve(
    tracker: Tracker,
    shard: usize,
    ordinal: u64,
    used: u64,
    capacity: u64,
    sealed: bool,
    length: u64,
) -> After<Reserved>
    ensures { ReserveMet tracker shard ordinal used capacity sealed length result }
{
    let next = tracker.next;
    let waiting = waiting_on(&tracker.lengths, shard);
    let sound = is_sound(tracker);
    if let Err(refusal) = reserve_verdict(
        sound, shard, next, waiting, used, capacity, sealed, length,
    ) {
        return After {
            tracker,
            answer: Err(refusal),
        };
    }
    let mut changed = tracker;
    changed.slots[shard] = Slot {
        number: next,
        ordinal,
        offset: used,
    };
    changed.next = next + 1;
    After {
        tracker: changed,
        answer: Ok(Reserved {
            number: next,
            place: used,
            used: used + length,
        }),
    }
}

// ---- record

// The refusals of record in the table's order. An open slot needs a place in the queue for itself.
#[tactic(auto, using(crate::proofs::Finishes::led_refused), unfolding(crate::specs::Recording::record_tests))]
fn record_verdict(
    soundness: bool,
    shard: usize,
    next: u64,
    waiting: usize,
    held: u64,
) -> Result<(), Refusal>
    ensures number { number_of_verdict result ≡ first_of (record_tests soundness shard next waiting held) }
    ensures passed { OnOk result (RecordFree soundness shard next waiting held) }
{
    finish_verdict(soundness, shard)?;
    if next == u64::MAX {
        return Err(Refusal::NumbersUsedUp);
    }
    if 32 <= waiting || (held != 0 && 31 <= waiting) {
        return Err(Refusal::NoWaitingRoom);
    }
    Ok(())
}

pub fn record(tracker: Tracker, shard: usize, delta: i8) -> After<u64>
    ensures { RecordMet tracker shard delta result }
{
    let next = tracker.next;
    let held = number_on(&tracker.slots, shard);
    let waiting = waiting_on(&tracker.lengths, shard);
    let sound = is_sound(tracker);
    if let Err(refusal) = record_verdict(sound, shard, next, waiting, held) {
        return After {
            tracker,
            answer: Err(refusal),
        };
    }
    let mut changed = tracker;
    changed.push(shard, next, delta);
    changed.next = next + 1;
    After {
        tracker: changed,
        answer: Ok(next),
    }
}

// ---- complete and abandon

#[derive(Clone, Copy, Debug, PartialEq, Eq)]
pub enum Finish {
    Done,
    Stale,
}

pub fn complete(tracker: Tracker, shard: usize, number: u64, delta: i8) -> After<Finish>
    ensures { CompleteMet tracker shard number delta result }
{
    let sound = is_sound(tracker);
    if let Err(refusal) = finish_verdict(sound, shard) {
        return After {
            tracker,
            answer: Err(refusal),
        };
    }
    if number == 0 || tracker.slots[shard].number != number {
        return After {
            tracker,
            answer: Ok(Finish::Stale),
        };
    }
    let mut changed = tracker;
    changed.slots[shard].number = 0;
    if delta != 0 {
        changed.insert(shard, number, delta);
    }
    After {
        tracker: changed,
        answer: Ok(Finish::Done),
    }
}

pub fn abandon(tracker: Tracker, shard: usize, number: u64) -> After<Finish>
    ensures { AbandonMet tracker shard number result }
{
    complete(tracker, shard, number, 0)
}

// ---- checkpoint

// What the slots passed so far say: whether one is open, the least place, and the least number. C has
// this layout, with the flag beside the place.
#[repr(C)]
#[derive(Drop)]
pub struct Least {
    pub any: bool,
    pub ordinal: u64,
    pub offset: u64,
    pub limit: u64,
}

// The first place lies before the second.
#[tactic(auto, unfolding(crate::specs::Least::before))]
pub fn earlier(ordinal: u64, offset: u64, ordinal2: u64, offset2: u64) -> bool
    ensures { result ≡ before ordinal offset ordinal2 offset2 }
{
    (ordinal, offset) < (ordinal2, offset2)
}

#[tactic(auto, unfolding(crate::specs::Least::lesser_of))]
pub fn lesser(a: u64, b: u64) -> u64
    ensures { result ≡ lesser_of a b }
{
    a.min(b)
}

// One slot more is looked at. What is kept is changed, and not built anew for each slot.
#[tactic(auto, unfolding(crate::specs::Least::step_of))]
pub fn step(least: Least, slot: Slot) -> Least
    ensures { result ≡ step_of least slot }
{
    if slot.number == 0 {
        return least;
    }
    let mut kept = least;
    if !kept.any || earlier(slot.ordinal, slot.offset, kept.ordinal, kept.offset) {
        kept.ordinal = slot.ordinal;
        kept.offset = slot.offset;
    }
    kept.any = true;
    kept.limit = lesser(slot.number, kept.limit);
    kept
}

// The least place and the least open number along a run of any length.
#[tactic(auto, unfolding(crate::specs::Least::least_of))]
pub fn least_open(slots: &[Slot], ordinal: u64, used: u64) -> Least
    ensures { result ≡ least_of ordinal used slots.now }
{
    let mut least = Least {
        any: false,
        ordinal,
        offset: used,
        limit: u64::MAX,
    };
    for slot in slots {
        least = step(least, *slot);
    }
    least
}

// The entries at the front of a queue that are below a limit: how many, and the sum of their deltas.
#[derive(Drop)]
struct Front {
    count: usize,
    sum: i64,
}

// The front of the queue that has these numbers and deltas.
fn front_of(numbers: &[u64], deltas: &[i8], limit: u64) -> Front
    requires { (length numbers.now ≤ 32) × (length deltas.now ≡ length numbers.now) }
    ensures { Fronted limit (queue_from numbers.now deltas.now) result }
{
    let mut sum: i64 = 0;
    for (i, number) in numbers.iter().enumerate() {
        if limit <= *number {
            return Front { count: i, sum };
        }
        sum += i64::from(deltas[i]);
    }
    Front {
        count: numbers.len(),
        sum,
    }
}

// The sum over all queues.
fn sum_below(tracker: &Tracker, limit: u64) -> i64
    requires { Roomy tracker.now }
    ensures { Summed tracker.now limit result }
{
    let mut total: i64 = 0;
    for shard in 0..16 {
        let (numbers, deltas) = tracker.queue(shard);
        total += front_of(numbers, deltas, limit).sum;
    }
    total
}

// Nothing waits on any shard.
fn all_empty(lengths: &[usize]) -> bool
    ensures { result ≡ list_all (λ n. eqb n 0) lengths.now }
{
    lengths.iter().all(|length| *length == 0)
}

// What an accepted checkpoint answers: the cursor's ordinal and offset, the sum, the limit, and
// whether work is pending.
#[derive(Clone, Copy, Debug, PartialEq, Eq)]
pub struct Progress {
    pub ordinal: u64,
    pub offset: u64,
    pub sum: i64,
    pub limit: u64,
    pub pending: bool,
}

pub fn checkpoint(tracker: Tracker, ordinal: u64, used: u64) -> Result<Progress, Refusal>
    ensures { said_checkpoint result ≡ checkpoint_of (view tracker) ordinal used }
{
    if !is_sound(tracker) {
        return Err(Refusal::NotSound);
    }
    let least = least_open(&tracker.slots, ordinal, used);
    let sum = sum_below(&tracker, least.limit);
    let empty = all_empty(&tracker.lengths);
    let pending = least.any || !empty;
    Ok(Progress {
        ordinal: least.ordinal,
        offset: least.offset,
        sum,
        limit: least.limit,
        pending,
    })
}

// ---- drain

pub fn drain(tracker: Tracker, limit: u64) -> After<i64>
    ensures { DrainMet tracker limit result }
{
    if !is_sound(tracker) {
        return After {
            tracker,
            answer: Err(Refusal::NotSound),
        };
    }
    let mut changed = tracker;
    let mut total = 0;
    for shard in 0..16 {
        let (numbers, deltas) = changed.queue(shard);
        let front = front_of(numbers, deltas, limit);
        total += front.sum;
        changed.remove_front(shard, front.count);
    }
    After {
        tracker: changed,
        answer: Ok(total),
    }
}

// ---- clear

pub fn clear(tracker: Tracker) -> After<()>
    ensures { ClearMet tracker result }
{
    if !is_sound(tracker) {
        // Every cell stays as it is, past the queues' lengths too.
        return After {
            tracker,
            answer: Err(Refusal::NotSound),
        };
    }
    After {
        tracker: Tracker {
            slots: [IDLE; 16],
            lengths: [0; 16],
            ..tracker
        },
        answer: Ok(()),
    }
}
