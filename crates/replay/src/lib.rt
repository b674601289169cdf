// Document 01, "Replay limits and start": which recovered entries are replayed, and the file at
// which replay begins. Any numbers may come in; a length is added to another only once both are
// known to be small.
#![tactic(auto)]

ghost use Rattle.std.specs.Prelude.{◌≤◌, cond, ◌≡◌};
ghost use Rattle.answers.specs.Numbers.{number_of_verdict};
ghost use Rattle.replay.specs.Limits.{data_limits, tombstone_limits};
ghost use Rattle.replay.specs.Start.{twins, said_start, start_of};
ghost use Rattle.replay.specs.Choice.{Suits};
ghost use Rattle.replay.specs.Inner.{entry_limits};

use answers::Refusal;

// The limits of an entry, whose length is that of its head, its key and its value. Without a value
// 12 can't arise.
#[tactic(auto, unfolding(crate::specs::Inner::entry_limits))]
fn check_entry(head: usize, klen: usize, vlen: usize, maximum: usize) -> Result<(), Refusal>
    requires { head ≤ 10 }
    ensures { number_of_verdict result ≡ entry_limits head klen vlen maximum }
{
    if answers::LARGEST_REGION < maximum {
        return Err(Refusal::RegionTooLarge);
    }
    if answers::LARGEST_KEY < klen {
        return Err(Refusal::KeyTooLong);
    }
    if answers::LARGEST_VALUE < vlen {
        return Err(Refusal::ValueTooLong);
    }
    if maximum < fields::align_up(head + klen + vlen) {
        return Err(Refusal::NoSpace);
    }
    Ok(())
}

// The limits of a data entry. Refusals 3, 11, 12, 13.
#[tactic(auto, unfolding(crate::specs::Inner::entry_limits, crate::specs::Limits::data_limits))]
pub fn check_data(klen: usize, vlen: usize, maximum: usize) -> Result<(), Refusal>
    ensures { number_of_verdict result ≡ data_limits klen vlen maximum }
{
    check_entry(10, klen, vlen, maximum)
}

// The limits of a tombstone, which has no value. Refusals 3, 11, 13.
#[tactic(auto, using(crate::proofs::Tombstones::without_value), unfolding(crate::specs::Inner::entry_limits, crate::specs::Limits::tombstone_limits))]
pub fn check_tombstone(klen: usize, maximum: usize) -> Result<(), Refusal>
    ensures { number_of_verdict result ≡ tombstone_limits klen maximum }
{
    check_entry(8, klen, 0, maximum)
}

// Whether two ordinals of the list are equal.
fn has_twins(ordinals: &[u64]) -> bool
    ensures { result ≡ twins ordinals.now }
{
    // one file alone is soon told
    if ordinals.len() < 2 {
        return false;
    }
    let mut rest = ordinals;
    while let Some((first, others)) = rest.split_first() {
        if others.contains(first) {
            return true;
        }
        rest = others;
    }
    false
}

// Whether replay begins at the first of two ordinals rather than at the second: the smaller of two
// at or above the cursor's, otherwise the larger. No order of the ordinals says this: the cursor decides.
fn starts_before(first: u64, second: u64, cursor: u64) -> bool
    ensures { cond result (Suits cursor first second) (Suits cursor second first) }
{
    if second < cursor {
        return second < first;
    }
    if first < cursor {
        return false;
    }
    first < second
}

// The file at which replay begins, by its place in the list as given, whatever the list's order.
// Refusals 18, 22.
#[tactic(auto, using(crate::proofs::Starts::start_many, crate::proofs::Starts::start_equal, crate::proofs::Starts::start_nothing))]
pub fn start_file(ordinals: &[u64], cursor: u64) -> Result<Option<usize>, Refusal>
    ensures { said_start result ≡ start_of ordinals.now cursor }
{
    if 64 < ordinals.len() {
        return Err(Refusal::TooManyOrdinals);
    }
    if has_twins(ordinals) {
        return Err(Refusal::EqualOrdinals);
    }
    if ordinals.is_empty() {
        return Ok(None);
    }
    let mut place = 0;
    for i in 1..ordinals.len() {
        if starts_before(ordinals[i], ordinals[place], cursor) {
            place = i;
        }
    }
    Ok(Some(place))
}
