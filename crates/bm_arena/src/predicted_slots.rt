// Predicted slots of numbers: a guess that a look-up tries before the index. A wrong guess only
// costs time.
use crate::arena::Slot;

/// Numbers that are handed out one after another get slots one after another, so that most slots
/// can be predicted from the number, without a read of the index. The prediction consists of the
/// number that would have slot 0, and the stride between the numbers of neighbouring slots. With
/// several shards the stride is the number of shards. Each added entry votes on the prediction.
#[derive(Clone, Copy)]
pub(crate) struct PredictedSlots {
    // The block number predicted for slot 0, and the stride to the next slot's: at least 1.
    from: u64,
    stride: u64,
    // The number that was added last, and its slot.
    last: u64,
    last_slot: u64,
    // The number of added entries with the predicted slot, less the number of those without it.
    votes: u64,
}

impl PredictedSlots {
    /// Nothing is known.
    pub(crate) fn new() -> PredictedSlots {
        PredictedSlots {
            from: 0,
            stride: 1,
            last: 0,
            last_slot: 0,
            votes: 0,
        }
    }

    /// The predicted slot of a number. None if the votes are fewer than half of the entries: too
    /// few slots are predicted right then.
    pub(crate) fn guess(&self, id: u64, entries: usize) -> Option<Slot> {
        if self.votes < entries as u64 / 2 {
            return None;
        }
        Some(self.slot_of(id) as usize)
    }

    fn slot_of(&self, id: u64) -> u64 {
        let ahead = id.wrapping_sub(self.from);
        if self.stride < 2 {
            return ahead;
        }
        ahead / self.stride
    }

    /// A number was added, and got this slot.
    pub(crate) fn add(&mut self, id: u64, slot: Slot) {
        let slot = slot as u64;
        if self.slot_of(id) == slot {
            self.votes = self.votes.saturating_add(1);
        } else if self.votes > 0 {
            self.votes -= 1;
        } else {
            self.begin(id, slot);
        }
        self.last = id;
        self.last_slot = slot;
    }

    /// Guesses by this number from now on, and by the one that was added before it.
    fn begin(&mut self, id: u64, slot: u64) {
        let ahead = id.wrapping_sub(self.last);
        let is_next = slot.wrapping_sub(self.last_slot) == 1;
        self.stride = if is_next && ahead > 0 { ahead } else { 1 };
        self.from = id.wrapping_sub(slot.wrapping_mul(self.stride));
        self.votes = 1;
    }

    /// A number that had this slot was dropped.
    pub(crate) fn drop(&mut self, id: u64, slot: Slot) {
        if self.slot_of(id) == slot as u64 {
            self.votes = self.votes.saturating_sub(1);
        }
    }
}
