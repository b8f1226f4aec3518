// Look-ups in an arena. None changes anything or takes memory.
ghost use Rattle.std.specs.Prelude.{◌≡◌, ◌<◌, ℕ, IsTrue, ◌↔◌, is_some, length, map, slice_get, IsSome, IfSome, IsSomeAnd, Some, [], option_map, option_and_then};
ghost use Rattle.bm_base.specs.Words.{option_map_or};
ghost use Rattle.bm_arena.specs.Triplets.{Block, triplet_view};
ghost use Rattle.bm_arena.specs.Contents.{block_at, slot_of, HasHead, HasCapacity, marks_at, list_of};
ghost use Rattle.bm_arena.specs.HeldMaps.{id_at};

use crate::arena::{Arena, Slot, Triplet};
use crate::links;
use bm_base::{BlockId, BlockInfo, Marks, StorageId};

impl Arena {
    /// The slot of a block number, if it has an entry.
    pub fn find(&self, id: BlockId) -> Option<Slot>
        ensures { result ≡ slot_of self.now id }
    {
        match self.find_predicted(id) {
            Some(slot) => Some(slot),
            None => self.ids.get(id.0),
        }
    }

    /// The slot of a block number if the prediction is right, without a read of the index; else
    /// None.
    pub(crate) fn find_predicted(&self, id: BlockId) -> Option<Slot>
        ensures { IfSome result (λ slot. slot_of self.now id ≡ Some slot) }
    {
        match self.predicted.guess(id.0, self.ids.len()) {
            Some(slot) if self.is_slot_of(slot, id) => Some(slot),
            _ => None,
        }
    }

    /// Whether a slot, which may be any number, is that of a block number.
    fn is_slot_of(&self, slot: Slot, id: BlockId) -> bool
        ensures { IsTrue result → slot_of self.now id ≡ Some slot }
    {
        self.show_invariant();
        match self.number_at(slot) {
            Some(number) => number.0 == id.0 && slot != self.delimiter,
            None => false,
        }
    }

    /// The block number of the entry in a slot, if it is held.
    fn number_at(&self, slot: Slot) -> Option<BlockId>
        ensures { result ≡ option_map (λ b. b.id) (block_at self.now slot) }
    {
        match self.slots.get(slot) {
            Some(entry) => Some(BlockId(entry.id)),
            None => None,
        }
    }

    /// The block number of the entry in `slot`, which is held.
    pub fn id_of(&self, slot: Slot) -> BlockId
        requires { IsSome (block_at self.now slot) }
        ensures { (b : Block) → block_at self.now slot ≡ Some b → result ≡ b.id }
    {
        BlockId(links::id_at(&self.slots, slot))
    }

    /// The block number of the entry in `slot`; 0 for a slot that is not held. Mostly it reads the
    /// index alone: its entries are a fifth as large as those of the slots, and in the same order.
    pub fn number_of(&self, slot: Slot) -> BlockId
        ensures { result ≡ id_at self.now slot }
    {
        self.show_invariant();
        // The delimiter has the first slot.
        match self.ids.entry_at(slot.wrapping_sub(1)) {
            Some((id, held)) if held == slot => BlockId(id),
            _ => self.number_at(slot).unwrap_or(BlockId(0)),
        }
    }

    /// The information on the block in `slot`: None for an unknown block.
    pub fn info(&self, slot: Slot) -> Option<BlockInfo>
        ensures { result ≡ option_and_then (λ b. b.info) (block_at self.now slot) }
    {
        match self.slots.get(slot) {
            Some(entry) => entry.info,
            None => None,
        }
    }

    /// The information on the block in `slot`, and its replicas, in one read of the slot. None for
    /// a slot that is not held.
    #[inline]
    pub fn block(&self, slot: Slot) -> Option<(Option<BlockInfo>, &[Triplet])>
        ensures info { option_map (λ p. p.0) result
            ≡ option_map (λ b. b.info) (block_at self.now slot) }
        ensures replicas { option_map (λ p. map triplet_view p.1.now) result
            ≡ option_map (λ b. b.replicas) (block_at self.now slot) }
    {
        match self.slots.get(slot) {
            Some(entry) => Some((entry.info, entry.triplets.as_slice())),
            None => None,
        }
    }

    /// The marks of the replica on `storage` of the block in `slot`, if it has one.
    pub fn marks(&self, slot: Slot, storage: StorageId) -> Option<Marks>
        ensures { result ≡ marks_at self.now slot storage }
    {
        match links::find(&self.slots, slot, storage.0) {
            Some(triplet) => Some(triplet.marks),
            None => None,
        }
    }

    /// How many block numbers have an entry.
    pub fn count(&self) -> usize
        ensures { result ≡ length self.now.ids }
    {
        self.ids.len()
    }

    /// The slot of the entry at index `i`, from 0 on; None from `count()` on. So a loop can visit
    /// all entries.
    pub fn slot_at(&self, i: usize) -> Option<Slot>
        ensures { result ≡ option_map (λ p. p.1) (slice_get self.now.ids i) }
    {
        self.ids.slot_at(i)
    }

    /// The storage and the marks of the replica at index `i`, from 0 on, of the block in `slot`;
    /// None after the last one.
    pub fn triplet_at(&self, slot: Slot, i: usize) -> Option<(StorageId, Marks)>
        ensures { result ≡ option_and_then (λ b. slice_get b.replicas i) (block_at self.now slot) }
    {
        links::replica_at(&self.slots, slot, i)
    }

    /// How many replicas the block in `slot` has: 0 if the slot is not held.
    pub fn triplet_count(&self, slot: Slot) -> usize
        ensures { result ≡ option_map_or (λ b. length b.replicas) (block_at self.now slot) 0 }
    {
        match self.slots.get(slot) {
            Some(entry) => entry.triplets.len(),
            None => 0,
        }
    }

    /// A number above every slot that is held: one above the greatest that was held at any time.
    pub fn slot_bound(&self) -> usize
        ensures bound { result ≡ self.now.bound }
        ensures above { (slot : ℕ) → IsSome (block_at self.now slot) → slot < result }
    {
        self.bound
    }

    /// Whether `slot` is held.
    pub fn has_entry(&self, slot: Slot) -> bool
        ensures { result ≡ is_some (block_at self.now slot) }
    {
        self.slots.contains(slot)
    }

    /// Whether a storage has a head: the condition of `link_front` and `put_delimiter`.
    pub fn has_head(&self, storage: StorageId) -> bool
        ensures { IsTrue result ↔ HasHead self.now storage }
    {
        self.heads.contains_key(&storage.0)
    }

    /// Whether one more replica of the block in `slot` needs no memory: the condition of
    /// `link_front`.
    pub fn has_capacity(&self, slot: Slot) -> bool
        ensures { IsTrue result ↔ HasCapacity self.now slot }
    {
        match self.slots.get(slot) {
            Some(entry) => entry.triplets.len() < entry.triplets.capacity(),
            None => false,
        }
    }

    /// Whether the delimiter is in a storage's list.
    pub fn has_delimiter(&self, storage: StorageId) -> bool
        ensures { result ≡ is_some (marks_at self.now self.now.delimiter storage) }
    {
        self.marks(self.delimiter, storage).is_some()
    }

    /// Whether `slot` is held by an entry without a replica: the condition of `drop_entry`.
    pub fn has_no_replicas(&self, slot: Slot) -> bool
        ensures { IsTrue result ↔ IsSomeAnd (block_at self.now slot) (λ b. b.replicas ≡ []) }
    {
        match self.slots.get(slot) {
            Some(entry) => entry.triplets.is_empty(),
            None => false,
        }
    }

    /// Whether no block is in a storage's list, also without a head: the condition of `drop_head`.
    pub fn is_list_empty(&self, storage: StorageId) -> bool
        ensures { IsTrue result ↔ (list_of self.now storage ≡ []) }
    {
        match self.heads.get(&storage.0) {
            Some(first) => first.slot().is_none(),
            None => true,
        }
    }

    /// Whether `slot` is the delimiter's, which no block has.
    pub fn is_delimiter(&self, slot: Slot) -> bool
        ensures { IsTrue result ↔ (slot ≡ self.now.delimiter) }
    {
        slot == self.delimiter
    }
}
