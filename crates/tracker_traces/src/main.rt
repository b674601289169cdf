// Document 01's tracker rules, with document 02's request 6, on worked traces: a line for each
// step, which says what was asked and what was answered. What it writes is held to the file
// `stdout`, which was checked line by line against the documents.
#![tactic(auto)]

ghost use Rattle.std.specs.Prelude.{true};

use answers::Refusal;
use std::io;
use tracker::{After, Finish, Least, Slot, Tracker};

// ---- answers

// Writes what a call answered, or its refusal, and ends the line.
fn tell<A, F: FnOnce(A) -> io::Result<()> + Drop>(
    rt: &HostRuntime,
    answer: Result<A, Refusal>,
    told: F,
) -> io::Result<()>
    requires { F.IsAlwaysCallable told }
{
    match answer {
        Ok(accepted) => told(accepted)?,
        Err(refusal) => print!(rt; "{refusal}")?,
    }
    println!(rt)
}

fn word(finish: Finish) -> &'static str {
    match finish {
        Finish::Done => "done",
        Finish::Stale => "stale",
    }
}

// ---- one call each

// A tracker that goes through a trace. Each call writes a line, and the tracker goes on as the call
// left it.
#[derive(Drop)]
struct Trace<'a> {
    rt: &'a HostRuntime,
    tracker: Tracker,
}

impl<'a> Trace<'a> {
    fn of(rt: &'a HostRuntime, tracker: Tracker) -> Trace<'a> {
        Trace { rt, tracker }
    }

    fn fresh(rt: &'a HostRuntime) -> Trace<'a> {
        Trace::of(rt, tracker::fresh())
    }

    // What the calls that change the tracker have in common.
    fn goes_on<A: Copy, F: FnOnce(A) -> io::Result<()> + Drop>(
        &mut self,
        after: After<A>,
        told: F,
    ) -> io::Result<()>
        requires { F.IsAlwaysCallable told }
    {
        self.tracker = after.tracker;
        tell(self.rt, after.answer, told)
    }

    // The parameters are those of `tracker::reserve`, and of `tracker::checkpoint` below: C has them so.
    fn reserve(
        &mut self,
        shard: usize,
        ordinal: u64,
        used: u64,
        capacity: u64,
        sealed: bool,
        length: u64,
    ) -> io::Result<()> {
        let rt = self.rt;
        let seal = if sealed { " sealed" } else { "" };
        print!(rt;
            "shard {shard} reserves {length} in file {ordinal}, used {used} of {capacity}{seal}: "
        )?;
        let after = tracker::reserve(self.tracker, shard, ordinal, used, capacity, sealed, length);
        self.goes_on(after, |taken| {
            print!(rt;
                "number {}, place {}, used {}",
                taken.number, taken.place, taken.used
            )
        })
    }

    fn record(&mut self, shard: usize, delta: i8) -> io::Result<()> {
        let rt = self.rt;
        print!(rt; "shard {shard} records {delta}: ")?;
        let after = tracker::record(self.tracker, shard, delta);
        self.goes_on(after, |number| print!(rt; "number {number}"))
    }

    fn complete(&mut self, shard: usize, number: u64, delta: i8) -> io::Result<()> {
        let rt = self.rt;
        print!(rt; "shard {shard} completes number {number} with {delta}: ")?;
        let after = tracker::complete(self.tracker, shard, number, delta);
        self.goes_on(after, |finish| print!(rt; "{}", word(finish)))
    }

    fn abandon(&mut self, shard: usize, number: u64) -> io::Result<()> {
        let rt = self.rt;
        print!(rt; "shard {shard} abandons number {number}: ")?;
        let after = tracker::abandon(self.tracker, shard, number);
        self.goes_on(after, |finish| print!(rt; "{}", word(finish)))
    }

    fn drain(&mut self, limit: u64) -> io::Result<()> {
        let rt = self.rt;
        print!(rt; "drain below {limit}: ")?;
        let after = tracker::drain(self.tracker, limit);
        self.goes_on(after, |sum| print!(rt; "sum {sum}"))
    }

    fn clear(&mut self) -> io::Result<()> {
        let rt = self.rt;
        print!(rt; "clear: ")?;
        let after = tracker::clear(self.tracker);
        self.goes_on(after, |_| print!(rt; "cleared"))
    }

    fn checkpoint(&self, ordinal: u64, used: u64) -> io::Result<()> {
        let rt = self.rt;
        print!(rt; "checkpoint with file {ordinal}, used {used}: ")?;
        tell(rt, tracker::checkpoint(self.tracker, ordinal, used), |p| {
            let pending = if p.pending {
                "pending"
            } else {
                "nothing pending"
            };
            write_cursor(rt, p.ordinal, p.offset, p.limit)?;
            print!(rt; ", sum {}, {pending}", p.sum)
        })
    }

    // Every call on the value; each is refused with 28 and leaves the value as it was.
    fn every_call(&mut self) -> io::Result<()> {
        self.reserve(0, 7, 0, 4096, false, 16)?;
        self.record(0, 1)?;
        self.complete(0, 1, 1)?;
        self.abandon(0, 1)?;
        self.checkpoint(7, 0)?;
        self.drain(5)?;
        self.clear()?;
        self.state()
    }

    // Records so many deltas on shard 0, without a line for each.
    fn fill(&mut self, count: usize) {
        for _ in 0..count {
            self.tracker = tracker::record(self.tracker, 0, 1).tracker;
        }
    }

    // How many deltas wait on shards 0 and 1, and the next number.
    fn state(&self) -> io::Result<()> {
        let first = self.tracker.lengths[0];
        let second = self.tracker.lengths[1];
        let next = self.tracker.next;
        println!(self.rt;
            "  now {first} wait on shard 0, {second} on shard 1, the next number is {next}"
        )
    }

    // What waits on a shard, from the front of its queue on: each number with its delta, which the
    // tracker has in another array, as C has it. None waits on a shard that isn't there.
    fn waiting(&self, shard: usize) -> io::Result<()> {
        print!(self.rt; "shard {shard} has waiting")?;
        let count = self.tracker.lengths.get(shard).copied().unwrap_or(0);
        let pairs = self.tracker.numbers.iter().zip(&self.tracker.deltas);
        for (number, delta) in pairs.skip(shard.saturating_mul(32)).take(count) {
            print!(self.rt; " ({number}, {delta})")?;
        }
        println!(self.rt)
    }
}

// ---- traces

fn trial(rt: &HostRuntime) -> io::Result<()> {
    println!(rt; "-- document 01's trial, with request 6's sum")?;
    let mut t = Trace::fresh(rt);
    t.checkpoint(7, 0)?;
    t.reserve(0, 7, 0, 4096, false, 16)?;
    t.reserve(1, 7, 16, 4096, false, 16)?;
    t.record(0, 5)?;
    t.complete(0, 1, 1)?;
    t.checkpoint(7, 32)?;
    t.state()
}

// On each of two shards a delta is recorded while the reservation is open, and completed after it.
fn in_order(rt: &HostRuntime) -> io::Result<()> {
    println!(rt; "-- the sum takes every number below the limit; so does the drain")?;
    let mut t = Trace::fresh(rt);
    t.reserve(0, 7, 0, 4096, false, 16)?;
    t.reserve(1, 7, 16, 4096, false, 16)?;
    t.record(0, 5)?;
    t.complete(0, 1, 1)?;
    t.waiting(0)?;
    t.record(1, -7)?;
    t.drain(2)?;
    t.state()?;
    t.complete(1, 2, 100)?;
    t.waiting(1)?;
    t.checkpoint(7, 32)?;
    t.drain(4)?;
    t.state()?;
    t.drain(5)?;
    t.state()?;
    t.checkpoint(7, 32)
}

// A tracker in which numbers 2, 4, 4 and 6 wait on shard 0, beside an open one. Numbers and deltas are
// two arrays, because the tracker has C's layout.
fn with_equals(open: u64) -> Tracker {
    let mut t = tracker::fresh();
    t.next = 9;
    t.numbers[..4].copy_from_slice(&[2, 4, 4, 6]);
    t.deltas[..4].copy_from_slice(&[1, 2, 3, 4]);
    t.lengths[0] = 4;
    t.slots[0].number = open;
    t
}

fn behind_equals(rt: &HostRuntime) -> io::Result<()> {
    println!(rt; "-- a completed delta goes in behind its equals")?;
    let mut t = Trace::of(rt, with_equals(4));
    t.waiting(0)?;
    t.complete(0, 4, 5)?;
    t.waiting(0)?;
    t.tracker = with_equals(1);
    t.complete(0, 1, 5)?;
    t.waiting(0)?;
    t.tracker = with_equals(6);
    t.complete(0, 6, 5)?;
    t.waiting(0)?;
    t.tracker = with_equals(5);
    t.complete(0, 5, 5)?;
    t.waiting(0)?;
    t.record(0, 8)?;
    t.waiting(0)
}

fn drain_in_the_middle(rt: &HostRuntime) -> io::Result<()> {
    println!(rt; "-- a drain in the middle of a queue, and the places used again")?;
    let mut t = Trace::fresh(rt);
    t.record(0, 1)?;
    t.record(0, 2)?;
    t.record(0, 0)?;
    t.record(0, -128)?;
    t.record(0, 127)?;
    t.state()?;
    t.drain(3)?;
    t.state()?;
    t.record(0, 4)?;
    t.drain(u64::MAX)?;
    t.state()?;
    t.drain(u64::MAX)?;
    t.state()
}

fn full_queue(rt: &HostRuntime) -> io::Result<()> {
    println!(rt; "-- a full queue: 32 wait on shard 0")?;
    let mut t = Trace::fresh(rt);
    t.fill(31);
    t.state()?;
    t.record(0, 1)?;
    t.record(0, 1)?;
    t.reserve(0, 7, 0, 4096, false, 16)?;
    t.record(1, 1)?;
    t.state()?;
    t.drain(5)?;
    t.reserve(0, 7, 0, 4096, false, 16)?;
    t.state()?;
    println!(rt; "-- beside an open slot the room is 31")?;
    t.fill(3);
    t.state()?;
    t.record(0, 1)?;
    t.complete(0, 34, 9)?;
    t.state()?;
    t.record(0, 1)?;
    t.checkpoint(7, 16)
}

fn overwritten(rt: &HostRuntime) -> io::Result<()> {
    println!(rt; "-- an open slot is overwritten; its number is stale then")?;
    let mut t = Trace::fresh(rt);
    t.reserve(3, 9, 64, 4096, false, 32)?;
    t.checkpoint(9, 96)?;
    t.reserve(3, 8, 128, 4096, false, 16)?;
    t.checkpoint(9, 96)?;
    t.complete(3, 1, 1)?;
    t.abandon(3, 1)?;
    t.complete(3, 2, 0)?;
    t.complete(3, 2, 1)?;
    t.checkpoint(9, 96)
}

fn finishing(rt: &HostRuntime) -> io::Result<()> {
    println!(rt; "-- complete and abandon")?;
    let mut t = Trace::fresh(rt);
    t.complete(0, 0, 1)?;
    t.abandon(0, 0)?;
    t.complete(0, 1, 1)?;
    t.reserve(0, 7, 0, 4096, false, 16)?;
    t.complete(1, 1, 1)?;
    t.complete(15, 1, 1)?;
    t.complete(16, 1, 1)?;
    t.abandon(16, 1)?;
    t.abandon(0, 1)?;
    t.state()?;
    t.reserve(0, 7, 16, 4096, false, 16)?;
    t.complete(0, 2, -128)?;
    t.state()?;
    t.checkpoint(7, 32)
}

fn cursors(rt: &HostRuntime) -> io::Result<()> {
    println!(rt; "-- the cursor goes by ordinal, then offset; the limit goes by number")?;
    let mut t = Trace::fresh(rt);
    t.reserve(5, 9, 16, 4096, false, 16)?;
    t.checkpoint(9, 4000)?;
    t.reserve(4, 8, 160, 4096, false, 16)?;
    t.checkpoint(9, 4000)?;
    t.reserve(6, 8, 144, 4096, false, 16)?;
    t.checkpoint(9, 4000)?;
    t.abandon(5, 1)?;
    t.checkpoint(9, 4000)?;
    t.clear()?;
    t.checkpoint(9, 4000)?;
    t.state()
}

fn reserve_refusals(rt: &HostRuntime) -> io::Result<()> {
    println!(rt; "-- reserve's refusals, one by one and before and after their limit")?;
    let mut t = Trace::fresh(rt);
    t.reserve(15, 7, 0, 4096, false, 16)?;
    t.reserve(16, 7, 0, 4096, false, 16)?;
    t.reserve(usize::MAX, 7, 0, 4096, false, 16)?;
    t.reserve(0, 7, 8, 4096, false, 16)?;
    t.reserve(0, 7, 0, 4096, false, 15)?;
    t.reserve(0, 7, 0, 4096, false, 17)?;
    t.reserve(0, 7, 0, 4096, false, 0)?;
    t.reserve(0, 7, 0, 268435456, false, 16)?;
    t.reserve(0, 7, 0, 268435457, false, 16)?;
    t.reserve(0, 7, 0, 4096, true, 16)?;
    t.reserve(0, 7, 32, 48, false, 16)?;
    t.reserve(0, 7, 32, 48, false, 32)?;
    t.reserve(0, 7, 48, 48, false, 16)?;
    t.reserve(0, 7, 64, 48, false, 16)?;
    t.state()
}

fn wide_sums(rt: &HostRuntime) -> io::Result<()> {
    println!(rt; "-- used count + length is never wrapped")?;
    let mut t = Trace::fresh(rt);
    t.reserve(0, 7, 18446744073709551600, 4096, false, 16)?;
    t.reserve(0, 7, 16, 4096, false, 18446744073709551600)?;
    t.reserve(0, 7, 0, 268435456, false, 268435456)?;
    t.reserve(0, 7, 16, 268435456, false, 268435456)?;
    t.state()
}

fn order_of_refusals(rt: &HostRuntime) -> io::Result<()> {
    println!(rt; "-- the order of reserve's refusals: each call has every later fault too")?;
    let mut t = Trace::fresh(rt);
    t.fill(32);
    t.tracker.next = 0;
    t.reserve(16, 7, 8, 268435457, true, 0)?;
    t.tracker.next = u64::MAX;
    t.reserve(16, 7, 8, 268435457, true, 0)?;
    t.reserve(0, 7, 8, 268435457, true, 0)?;
    t.tracker.next = 18446744073709551614;
    t.reserve(0, 7, 8, 268435457, true, 0)?;
    t.drain(2)?;
    t.reserve(0, 7, 8, 268435457, true, 0)?;
    t.reserve(0, 7, 16, 268435457, true, 16)?;
    t.reserve(0, 7, 16, 16, true, 16)?;
    t.reserve(0, 7, 16, 32, false, 16)?;
    t.state()
}

fn order_of_record(rt: &HostRuntime) -> io::Result<()> {
    println!(rt; "-- the order of record's refusals")?;
    let mut t = Trace::fresh(rt);
    t.fill(32);
    t.tracker.next = 0;
    t.record(16, 1)?;
    t.tracker.next = u64::MAX;
    t.record(16, 1)?;
    t.record(0, 1)?;
    t.tracker.next = 18446744073709551614;
    t.record(0, 1)?;
    t.drain(2)?;
    t.record(0, 1)?;
    t.state()
}

fn last_numbers(rt: &HostRuntime) -> io::Result<()> {
    println!(rt; "-- the last number is 2^64 - 2")?;
    let mut t = Trace::fresh(rt);
    t.tracker.next = 18446744073709551613;
    t.record(1, 3)?;
    t.reserve(0, 7, 0, 4096, false, 16)?;
    t.checkpoint(7, 16)?;
    t.record(1, 1)?;
    t.reserve(1, 7, 16, 4096, false, 16)?;
    t.complete(0, 18446744073709551614, 4)?;
    t.checkpoint(7, 16)?;
    t.drain(18446744073709551614)?;
    t.drain(u64::MAX)?;
    t.clear()?;
    t.state()
}

fn long_queues(rt: &HostRuntime) -> io::Result<()> {
    println!(rt; "-- unsound: 33 wait on shard 0")?;
    let mut t = Trace::fresh(rt);
    t.tracker.lengths[0] = 33;
    t.every_call()?;
    println!(rt; "-- unsound: a length of 2^64 - 1 on shard 1")?;
    t.tracker = tracker::fresh();
    t.tracker.lengths[1] = usize::MAX;
    t.every_call()?;
    println!(rt; "-- unsound: 32 wait beside an open slot; 31 are sound")?;
    t.tracker = tracker::fresh();
    t.fill(32);
    t.tracker.slots[0].number = 1;
    t.every_call()?;
    t.tracker.lengths[0] = 31;
    t.checkpoint(7, 0)
}

fn numbers_too_large(rt: &HostRuntime) -> io::Result<()> {
    println!(rt; "-- unsound: the next number is 0")?;
    let mut t = Trace::fresh(rt);
    t.tracker.next = 0;
    t.every_call()?;
    println!(rt; "-- unsound: an open number is the next one; the one before it is sound")?;
    t.tracker = tracker::fresh();
    t.tracker.next = 5;
    t.tracker.slots[15].number = 5;
    t.every_call()?;
    t.tracker.slots[15].number = 4;
    t.checkpoint(7, 0)?;
    println!(rt;
        "-- unsound: a waiting number is the next one; past the queue's length it doesn't count"
    )?;
    t.tracker = tracker::fresh();
    t.tracker.next = 5;
    t.tracker.numbers[33] = 5;
    t.tracker.lengths[1] = 2;
    t.every_call()?;
    t.tracker.lengths[1] = 1;
    t.checkpoint(7, 0)
}

fn numbers_that_fall(rt: &HostRuntime) -> io::Result<()> {
    println!(rt;
        "-- unsound: number 4 waits before number 3; past the queue's length it doesn't count"
    )?;
    let mut t = Trace::of(rt, with_equals(0));
    t.tracker.numbers[3] = 3;
    t.waiting(0)?;
    t.every_call()?;
    t.tracker.lengths[0] = 3;
    t.checkpoint(7, 0)
}

// ---- the lent forms

// A place in a file, and the least open number. Progress and Least have all three as fields of their
// own, so they are parameters here.
fn write_cursor(rt: &HostRuntime, ordinal: u64, offset: u64, limit: u64) -> io::Result<()> {
    print!(rt; "cursor ({ordinal}, {offset}), limit {limit}")
}

// A slot by its three numbers: the struct's own names at each trial's line would be no plainer.
fn slot(number: u64, ordinal: u64, offset: u64) -> Slot {
    Slot {
        number,
        ordinal,
        offset,
    }
}

fn lent_abandon(rt: &HostRuntime, number: u64, asked: u64) -> io::Result<()> {
    let kept = slots::abandon_kept(slot(number, 8, 48), asked);
    let answer = word(kept.answer);
    let left = kept.slot;
    print!(rt; "a lent slot with number {number} abandons {asked}: {answer}, ")?;
    println!(rt;
        "left with number {} at ({}, {})",
        left.number, left.ordinal, left.offset
    )
}

fn along(rt: &HostRuntime, found: Least) -> io::Result<()> {
    write_cursor(rt, found.ordinal, found.offset, found.limit)?;
    let open = if found.any { "one" } else { "none" };
    println!(rt; ", {open} is open")
}

fn lent_forms(rt: &HostRuntime) -> io::Result<()> {
    println!(rt; "-- one lent slot")?;
    lent_abandon(rt, 5, 5)?;
    lent_abandon(rt, 5, 4)?;
    lent_abandon(rt, 0, 0)?;
    println!(rt; "-- a search along sixteen lent slots")?;
    let mut run = [slot(0, 3, 3); 16];
    along(rt, slots::least_of(run, 9, 4000))?;
    run[5] = slot(1, 9, 16);
    run[4] = slot(2, 8, 160);
    run[15] = slot(3, 8, 144);
    along(rt, slots::least_of(run, 9, 4000))
}

// ---- replay

fn data(rt: &HostRuntime, klen: usize, vlen: usize, maximum: usize) -> io::Result<()> {
    print!(rt; "data entry, key {klen}, value {vlen}, maximum {maximum}: ")?;
    tell(
        rt,
        replay::check_data(klen, vlen, maximum),
        |_| print!(rt; "accepted"),
    )
}

fn tombstone(rt: &HostRuntime, klen: usize, maximum: usize) -> io::Result<()> {
    print!(rt; "tombstone, key {klen}, maximum {maximum}: ")?;
    tell(
        rt,
        replay::check_tombstone(klen, maximum),
        |_| print!(rt; "accepted"),
    )
}

fn data_limits(rt: &HostRuntime) -> io::Result<()> {
    println!(rt; "-- replay limits of a data entry")?;
    data(rt, 4096, 32768, 268435456)?;
    data(rt, 4097, 32769, 268435457)?;
    data(rt, 4097, 32769, 268435456)?;
    data(rt, 4096, 32769, 268435456)?;
    data(rt, 4096, 32768, 36880)?;
    data(rt, 4096, 32768, 36879)?;
    data(rt, 2, 1, 16)?;
    data(rt, 2, 1, 15)?;
    data(rt, 0, 0, 16)?;
    data(rt, 0, 0, 0)?;
    data(rt, usize::MAX, usize::MAX, 16)?;
    data(rt, 0, usize::MAX, 16)
}

fn tombstone_limits(rt: &HostRuntime) -> io::Result<()> {
    println!(rt; "-- replay limits of a tombstone")?;
    tombstone(rt, 4096, 268435456)?;
    tombstone(rt, 4096, 268435457)?;
    tombstone(rt, 4097, 268435456)?;
    tombstone(rt, 4096, 4112)?;
    tombstone(rt, 4096, 4111)?;
    tombstone(rt, 8, 16)?;
    tombstone(rt, 9, 16)?;
    tombstone(rt, usize::MAX, 16)
}

fn start(rt: &HostRuntime, ordinals: &[u64], from: u64) -> io::Result<()> {
    let count = ordinals.len();
    print!(rt; "start file of {count} for ordinal {from}: ")?;
    tell(rt, replay::start_file(ordinals, from), |file| match file {
        Some(place) => print!(rt; "place {place}"),
        None => print!(rt; "nothing"),
    })
}

fn start_files(rt: &HostRuntime) -> io::Result<()> {
    println!(rt; "-- start file, in the list 5, 3, 9")?;
    for from in [0, 3, 4, 6, 9, 10] {
        start(rt, &[5, 3, 9], from)?;
    }
    println!(rt; "-- the same files in the list 9, 5, 3")?;
    for from in [0, 3, 4, 6, 9, 10] {
        start(rt, &[9, 5, 3], from)?;
    }
    Ok(())
}

// The first N ordinals from 65 down.
fn falling<const N: usize>() -> [u64; N] {
    let mut list = [0; N];
    for (ordinal, n) in list.iter_mut().zip((1..66).rev()) {
        *ordinal = n;
    }
    list
}

fn start_files_of_many(rt: &HostRuntime) -> io::Result<()> {
    println!(rt; "-- start file of none, and of 64 and 65, the largest ordinal first")?;
    start(rt, &[], 0)?;
    for from in [0, 34, 66] {
        start(rt, &falling::<64>(), from)?;
    }
    start(rt, &falling::<65>(), 34)
}

fn start_files_of_equals(rt: &HostRuntime) -> io::Result<()> {
    println!(rt; "-- start file where all ordinals are equal")?;
    start(rt, &[7; 1], 7)?;
    start(rt, &[7; 2], 7)?;
    start(rt, &[7; 64], 8)?;
    start(rt, &[7; 65], 7)
}

fn main(rt: HostRuntime) -> io::Result<()> {
    trial(&rt)?;
    in_order(&rt)?;
    behind_equals(&rt)?;
    drain_in_the_middle(&rt)?;
    full_queue(&rt)?;
    overwritten(&rt)?;
    finishing(&rt)?;
    cursors(&rt)?;
    reserve_refusals(&rt)?;
    wide_sums(&rt)?;
    order_of_refusals(&rt)?;
    order_of_record(&rt)?;
    last_numbers(&rt)?;
    long_queues(&rt)?;
    numbers_too_large(&rt)?;
    numbers_that_fall(&rt)?;
    lent_forms(&rt)?;
    data_limits(&rt)?;
    tombstone_limits(&rt)?;
    start_files(&rt)?;
    start_files_of_many(&rt)?;
    start_files_of_equals(&rt)
}
