// The tracker's calls as the C interface stores them. The tracker and the out parameter come in as
// they stand behind their pointers, and go back as they are to be stored, with document 01's number
// beside them, 0 for accepted. A refusal hands both back as they came. `locker` has one straight
// line for each of these: read, call, store.
#![tactic(auto)]

ghost use Rattle.std.specs.Prelude.{◌≡◌};
ghost use Rattle.tracker.specs.Finishing.{finished};
ghost use Rattle.tracker.specs.Checkpoints.{reached};
ghost use Rattle.told.specs.Told.{ReserveOut, RecordOut, CompleteOut, AbandonOut, CheckpointOut, DrainOut, ClearOut, FreshOut, SlotOut, IsStored, done_number, progress_of};

use answers::Refusal;
use tracker::{Finish, Reserved, Slot, Tracker};

// What an accepted checkpoint tells. `pending` is 1 or 0: C has a number there, and so this stands
// beside the tracker's own struct.
#[repr(C)]
#[derive(Clone, Copy, Debug, PartialEq, Eq)]
pub struct Progress {
    pub ordinal: u64,
    pub offset: u64,
    pub sum: i64,
    pub limit: u64,
    pub pending: u64,
}

// What is to be stored after a call: what stands behind its pointer, what it tells in its out
// parameter, and its number, as C has them.
#[derive(Clone, Copy)]
pub struct Stored<S, O> {
    pub left: S,
    pub out: O,
    pub answer: u32,
}

// An answer as it is to be stored. A refusal leaves the out parameter as it came.
fn to_store<S, O: Copy>(left: S, answer: Result<O, Refusal>, out: O) -> Stored<S, O>
    ensures { IsStored answer out left result }
{
    match answer {
        Ok(value) => Stored {
            left,
            out: value,
            answer: 0,
        },
        Err(refusal) => Stored {
            left,
            out,
            answer: refusal.number(),
        },
    }
}

// What a finished call tells C: 1 for Done and 0 for Stale.
fn finish_number(finish: Finish) -> u64
    ensures { result ≡ done_number (finished finish) }
{
    match finish {
        Finish::Done => 1,
        Finish::Stale => 0,
    }
}

// What a checkpoint tells.
fn progress_told(answer: tracker::Progress) -> Progress
    ensures { result ≡ progress_of (reached answer) }
{
    Progress {
        ordinal: answer.ordinal,
        offset: answer.offset,
        sum: answer.sum,
        limit: answer.limit,
        pending: u64::from(answer.pending),
    }
}

pub fn reserve(
    tracker: Tracker,
    shard: usize,
    ordinal: u64,
    used: u64,
    capacity: u64,
    sealed: bool,
    length: u64,
    out: Reserved,
) -> Stored<Tracker, Reserved>
    ensures { ReserveOut tracker shard ordinal used capacity sealed length out result.left result.out result.answer }
{
    let after = tracker::reserve(tracker, shard, ordinal, used, capacity, sealed, length);
    to_store(after.tracker, after.answer, out)
}

// Tells the number that it took.
pub fn record(tracker: Tracker, shard: usize, delta: i8, out: u64) -> Stored<Tracker, u64>
    ensures { RecordOut tracker shard delta out result.left result.out result.answer }
{
    let after = tracker::record(tracker, shard, delta);
    to_store(after.tracker, after.answer, out)
}

pub fn complete(
    tracker: Tracker,
    shard: usize,
    number: u64,
    delta: i8,
    out: u64,
) -> Stored<Tracker, u64>
    ensures { CompleteOut tracker shard number delta out result.left result.out result.answer }
{
    let after = tracker::complete(tracker, shard, number, delta);
    to_store(after.tracker, after.answer.map(finish_number), out)
}

pub fn abandon(tracker: Tracker, shard: usize, number: u64, out: u64) -> Stored<Tracker, u64>
    ensures { AbandonOut tracker shard number out result.left result.out result.answer }
{
    let after = tracker::abandon(tracker, shard, number);
    to_store(after.tracker, after.answer.map(finish_number), out)
}

// The checkpoint leaves the tracker alone, so nothing is left to store there.
pub fn checkpoint(tracker: Tracker, ordinal: u64, used: u64, out: Progress) -> Stored<(), Progress>
    ensures { CheckpointOut tracker ordinal used out result.out result.answer }
{
    let answer = tracker::checkpoint(tracker, ordinal, used);
    to_store((), answer.map(progress_told), out)
}

pub fn drain(tracker: Tracker, limit: u64, out: i64) -> Stored<Tracker, i64>
    ensures { DrainOut tracker limit out result.left result.out result.answer }
{
    let after = tracker::drain(tracker, limit);
    to_store(after.tracker, after.answer, out)
}

// Whatever stood there is given up.
pub fn fresh(tracker: Tracker) -> Stored<Tracker, ()>
    ensures { FreshOut result.left result.answer }
{
    to_store(tracker::fresh(), Ok(()), ())
}

pub fn clear(tracker: Tracker) -> Stored<Tracker, ()>
    ensures { ClearOut tracker result.left result.answer }
{
    let after = tracker::clear(tracker);
    to_store(after.tracker, after.answer, ())
}

// Of one slot, abandoned in place: 1 for Done and 0 for Stale. Nothing is refused.
pub fn abandon_slot(slot: Slot, number: u64, out: u64) -> Stored<Slot, u64>
    ensures { SlotOut slot number result.left result.out result.answer }
{
    let kept = slots::abandon_kept(slot, number);
    to_store(kept.slot, Ok(finish_number(kept.answer)), out)
}
