// Replays a recorded call: of an operation on a data file, on numbers alone, or on the tracker.
use crate::judge::{Judge, Recorded};
use crate::operation::Call;
use crate::reader::{Fault, LONGEST_RUN, Malformed, Reader, Run};
use crate::said::Said;
use crate::{Failure, states};
use answers::LogFile;
use append::Item;
use tracker::{After, Tracker};

// As many ordinals as the longest run holds.
const MOST_ORDINALS: usize = LONGEST_RUN / 8;

// What a grid of 3 by 64 cells takes.
const GRID_BYTES: usize = 768;

// The run of a start file's call has 8 bytes for each ordinal, and the first one of a count's call
// is a grid.
fn check_run(call: Call, run: &[u8]) -> Result<(), Fault> {
    match call {
        Call::StartFile if run.len() % 8 != 0 => Err(Fault::HalfOrdinal),
        Call::CountEntries if run.len() != GRID_BYTES => Err(Fault::NoGrid),
        _ => Ok(()),
    }
}

// A delta is recorded in two's complement.
fn delta_of(number: u64) -> Result<i8, Fault> {
    i8::try_from(number.cast_signed()).map_err(|_| Fault::DeltaTooLarge)
}

// The ordinals go into a fixed room, since the tools keep to fixed memory.
fn start_file(run: &[u8], cursor: u64) -> Said {
    let (listed, _) = run.as_chunks();
    let count = listed.len().min(MOST_ORDINALS);
    let mut ordinals = [0; MOST_ORDINALS];
    for (ordinal, bytes) in ordinals.iter_mut().zip(listed) {
        *ordinal = u64::from_le_bytes(*bytes);
    }
    Said::from(replay::start_file(&ordinals[..count], cursor))
}

// The cells of a grid over a run that is lent for one: row by row, four bytes for each.
fn put_grid(grid: &[[u32; 64]; 3], run: &mut [u8]) {
    let (cells, _) = run.as_chunks_mut();
    for (bytes, cell) in cells.iter_mut().zip(grid.iter().flatten()) {
        *bytes = cell.to_le_bytes();
    }
}

// The grid is put there whatever the answer: with a refusal every cell has to be 0.
fn count_entries(file: LogFile, lent: &mut [u8], region: &[u8]) -> Said {
    match counts::count_entries(region, file) {
        Ok(grid) => {
            put_grid(&grid, lent);
            Said::accepted(&[])
        }
        Err(stopped) => {
            put_grid(&[[0; 64]; 3], lent);
            Said::from(stopped)
        }
    }
}

// Makes a call of the tracker, which goes on as the call left it. A tracker is large, so what a call
// hands back is kept here and not beside those of all other calls.
fn left<A: Into<Said>, F: FnOnce(Tracker) -> After<A>>(state: &mut Tracker, call: F) -> Said
    requires { F.IsAlwaysCallable call }
{
    let after = call(*state);
    *state = after.tracker;
    Said::from(after.answer)
}

// Makes the call. Those that look at marks have a version and an ordinal first.
fn answer(
    call: Call,
    numbers: [u64; 6],
    lent: &mut [u8],
    key: &[u8],
    value: &[u8],
    state: &mut Tracker,
) -> Result<Said, Fault> {
    let [a, b, c, d, e, f] = numbers;
    let file = LogFile {
        version: a,
        ordinal: b,
    };
    let said = match call {
        Call::Checksum => Said::from(checksum::hash(lent)),
        Call::HeaderReader => Said::from(header::read_header(lent)),
        Call::HeaderWriter => Said::from(header::write_header(lent, file)),
        Call::Read => Said::from(read::read_at(lent, file, c as usize, d as usize)),
        Call::AppendData => {
            let item = Item {
                kind: d,
                ns: e,
                key,
                value,
            };
            Said::from(append::append_data(lent, file, c as usize, item))
        }
        Call::AppendTombstone => Said::from(append::append_tombstone(
            lent, file, c as usize, d, key,
        )),
        Call::Walk => Said::from(scan::walk(lent, file, c as usize, d as usize)),
        Call::UsedBound => Said::from(tail::used_bound(lent)),
        Call::DurableEnd => Said::from(tail::durable_end(lent, file, c as usize)),
        Call::Reserve => left(
            state,
            |t| tracker::reserve(t, a as usize, b, c, d, e != 0, f),
        ),
        Call::Complete => {
            let delta = delta_of(c)?;
            left(state, |t| tracker::complete(t, a as usize, b, delta))
        }
        Call::Abandon => left(state, |t| tracker::abandon(t, a as usize, b)),
        Call::Record => {
            let delta = delta_of(b)?;
            left(state, |t| tracker::record(t, a as usize, delta))
        }
        Call::Checkpoint => Said::from(tracker::checkpoint(*state, a, b)),
        Call::Drain => left(state, |t| tracker::drain(t, a)),
        Call::Clear => left(state, |t| tracker::clear(t)),
        Call::ReplayData => Said::from(replay::check_data(a as usize, b as usize, c as usize)),
        Call::ReplayTombstone => Said::from(replay::check_tombstone(a as usize, b as usize)),
        Call::StartFile => start_file(lent, a),
        Call::CountEntries => count_entries(file, lent, key),
    };
    Ok(said)
}

// The same as `replay` of a call of the tracker. It is lent no bytes, so no change of them can be
// recorded.
fn replay_on_tracker(
    judge: &mut Judge<'_>,
    file: &mut Reader<'_>,
    call: Call,
    state: &mut Tracker,
) -> Result<(), Failure> {
    let start = file.place();
    let numbers = file.numbers(call.numbers())?;
    let recorded = Recorded::read(file)?;
    file.pieces(&mut [])?;
    let before = *state;
    let said = answer(call, numbers, &mut [], &[], &[], state).map_err(|fault| fault.at(start))?;
    judge.hold_said(recorded, said)?;
    if said.refusal.is_some() {
        // A refusal leaves the tracker as it was.
        states::hold(judge, &before, state)?;
    }
    Ok(())
}

// What is lent for a call: its runs, and what the first of them has to be behind it.
#[derive(Drop)]
pub struct Runs {
    lent: Run,
    key: Run,
    value: Run,
    expected: Run,
}

impl Runs {
    pub fn empty() -> Runs {
        Runs {
            lent: Run::empty(),
            key: Run::empty(),
            value: Run::empty(),
            expected: Run::empty(),
        }
    }

    // Those that a call doesn't have are empty.
    fn read(&mut self, file: &mut Reader<'_>, call: Call) -> Result<(), Malformed> {
        self.lent.clear();
        self.key.clear();
        self.value.clear();
        let count = call.runs();
        if 0 < count {
            file.run(&mut self.lent)?;
        }
        if 1 < count {
            file.run(&mut self.key)?;
        }
        if 2 < count {
            file.run(&mut self.value)?;
        }
        Ok(())
    }
}

// Makes a call, and holds what was answered and left to what is recorded.
pub fn replay(
    judge: &mut Judge<'_>,
    file: &mut Reader<'_>,
    call: Call,
    state: &mut Tracker,
    runs: &mut Runs,
) -> Result<(), Failure> {
    if call.is_on_tracker() {
        return replay_on_tracker(judge, file, call, state);
    }
    let start = file.place();
    let numbers = file.numbers(call.numbers())?;
    runs.read(file, call)?;
    let recorded = Recorded::read(file)?;
    // The changes that are recorded, put over the run as it was, give it as it has to be.
    runs.expected.copy(&runs.lent);
    file.pieces(runs.expected.bytes_mut())?;
    let end = file.place();
    check_run(call, runs.lent.bytes()).map_err(|fault| fault.at(end))?;
    let lent = runs.lent.bytes_mut();
    let key = runs.key.bytes();
    let value = runs.value.bytes();
    let said = answer(call, numbers, lent, key, value, state).map_err(|fault| fault.at(start))?;
    judge.hold_said(recorded, said)?;
    judge.hold_bytes(runs.expected.bytes(), runs.lent.bytes())?;
    Ok(())
}
