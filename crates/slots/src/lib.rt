// Document 01, "Forms that must change": the abandon as a call that clears one lent slot in place,
// and the cursor as a search along a lent run of slot records. Both answer by the definitions of
// the tracker by value. `abandon_kept` and `least_of` below have plain parameters: the table of public
// operations (docs/ENTRY-POINTS.md) promises both.
#![tactic(auto)]

ghost use Rattle.std.specs.Prelude.{◌≡◌};
ghost use Rattle.tracker.specs.Least.{least_of};
ghost use Rattle.slots.specs.Slots.{SlotAbandoned};

use tracker::{Finish, Least, Slot};

// The slot becomes idle if it has that number and the number isn't 0; only its number changes.
#[tactic(auto, unfolding(tracker::specs::Finishing::matches, tracker::specs::Finishing::slot_after))]
pub fn abandon_slot(slot: &mut Slot, number: u64) -> Finish
    ensures { SlotAbandoned slot.old number slot.new result }
{
    if number != 0 && slot.number == number {
        slot.number = 0;
        Finish::Done
    } else {
        Finish::Stale
    }
}

// The least place and the least open number along a run of any length, as the checkpoint has them:
// the active ordinal, the used count and 2^64 - 1 where no slot is open, and for an empty run.
pub fn least_along(slots: &[Slot], ordinal: u64, used: u64) -> Least
    ensures { result ≡ least_of ordinal used slots.now }
{
    tracker::least_open(slots, ordinal, used)
}

#[derive(Clone, Copy)]
pub struct KeptSlot {
    pub slot: Slot,
    pub answer: Finish,
}

// What `abandon_slot` leaves and answers, with plain parameters.
pub fn abandon_kept(slot: Slot, number: u64) -> KeptSlot
    ensures { SlotAbandoned slot number result.slot result.answer }
{
    let mut kept = slot;
    let answer = abandon_slot(&mut kept, number);
    KeptSlot { slot: kept, answer }
}

// What `least_along` answers for the sixteen slots of a tracker, with plain parameters.
pub fn least_of(slots: [Slot; 16], ordinal: u64, used: u64) -> Least
    ensures { result ≡ least_of ordinal used slots }
{
    least_along(&slots, ordinal, used)
}
