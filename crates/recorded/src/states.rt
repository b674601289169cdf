// The tracker's states in the recorded file: those that are set, and those that the tracker has to
// be in.
ghost use Rattle.std.specs.Prelude.{◌<◌, IfOk};

use crate::Failure;
use crate::judge::Judge;
use crate::reader::{Fault, Malformed, Reader};
use std::io;
use tracker::{Slot, Tracker};

// The next cell of N bytes, and the shard that its first byte names.
fn read_cell<const N: usize>(file: &mut Reader<'_>) -> Result<(usize, [u8; N]), Malformed>
    ensures { IfOk result (λ read. read.0 < 16) }
{
    let start = file.place();
    let cell = file.array::<N>()?;
    match cell.first() {
        Some(shard) if *shard < 16 => Ok((usize::from(*shard), cell)),
        _ => Err(Fault::ShardTooLarge.at(start)),
    }
}

fn read_slot(file: &mut Reader<'_>, state: &mut Tracker) -> Result<(), Malformed> {
    let (shard, cell) = read_cell::<25>(file)?;
    state.slots[shard] = Slot {
        number: fields::read::<8>(&cell, 1),
        ordinal: fields::read::<8>(&cell, 9),
        offset: fields::read::<8>(&cell, 17),
    };
    Ok(())
}

// Numbers and deltas go into two arrays, and a queue's length into a third: C has the tracker so.
fn read_waiting(file: &mut Reader<'_>, state: &mut Tracker) -> Result<(), Malformed> {
    let start = file.place();
    let (shard, cell) = read_cell::<10>(file)?;
    let length = state.lengths[shard];
    if 32 <= length {
        return Err(Fault::QueueTooLong.at(start));
    }
    let place = 32 * shard + length;
    state.numbers[place] = fields::read::<8>(&cell, 1);
    state.deltas[place] = cell[9].cast_signed();
    state.lengths[shard] = length + 1;
    Ok(())
}

fn read(file: &mut Reader<'_>) -> Result<Tracker, Malformed> {
    let mut state = tracker::fresh();
    state.next = u64::from_le_bytes(file.array()?);
    let [slots] = file.array::<1>()?;
    for _ in 0..slots {
        read_slot(file, &mut state)?;
    }
    let waiting = u16::from_le_bytes(file.array()?);
    for _ in 0..waiting {
        read_waiting(file, &mut state)?;
    }
    Ok(state)
}

// Sets the next state; the original's states are sound.
pub fn set(
    judge: &mut Judge<'_>,
    file: &mut Reader<'_>,
    state: &mut Tracker,
) -> Result<(), Failure> {
    *state = read(file)?;
    judge.hold("soundness", 1, u64::from(tracker::is_sound(*state)))?;
    Ok(())
}

// Holds the state to the next one.
pub fn check(judge: &mut Judge<'_>, file: &mut Reader<'_>, state: &Tracker) -> Result<(), Failure> {
    let expected = read(file)?;
    hold(judge, &expected, state)?;
    Ok(())
}

// Holds each part of a state. Places past a queue's length aren't part of it.
pub fn hold(judge: &mut Judge<'_>, expected: &Tracker, is: &Tracker) -> io::Result<()> {
    judge.hold("next number", expected.next, is.next)?;
    for shard in 0..16 {
        let right = expected.slots[shard];
        let slot = is.slots[shard];
        let waiting = expected.lengths[shard] as u64;
        judge.hold(
            format_args!("number in slot {shard}"),
            right.number,
            slot.number,
        )?;
        judge.hold(
            format_args!("ordinal in slot {shard}"),
            right.ordinal,
            slot.ordinal,
        )?;
        judge.hold(
            format_args!("offset in slot {shard}"),
            right.offset,
            slot.offset,
        )?;
        judge.hold(
            format_args!("how many wait on shard {shard}"),
            waiting,
            is.lengths[shard] as u64,
        )?;
    }
    for place in 0..512 {
        if place % 32 < expected.lengths[place / 32] {
            judge.hold(
                format_args!("number in waiting place {place}"),
                expected.numbers[place],
                is.numbers[place],
            )?;
            judge.hold(
                format_args!("delta in waiting place {place}"),
                complement(expected.deltas[place]),
                complement(is.deltas[place]),
            )?;
        }
    }
    Ok(())
}

// A delta in two's complement.
fn complement(delta: i8) -> u64 {
    i64::from(delta).cast_unsigned()
}
