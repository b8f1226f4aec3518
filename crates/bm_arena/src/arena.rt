// The arena: its fields, the content of a slot, what a contract sees of them, and constructors.
ghost use Rattle.std.specs.Prelude.{◌≡◌, ◌≢◌, ◌+◌, ℕ, None, Some, [], IfOk, IfErr};
ghost use Rattle.bm_base.specs.Words.{empty};
ghost use Rattle.bm_base.specs.declared.refusal.Refusal.TheVariants.{Memory};
ghost use Rattle.bm_arena.specs.Contents.{block_at, empty_block, saturating_next, IsLawful};
ghost use Rattle.bm_arena.specs.HeldMaps.{replicas_of, blocks_of};
ghost use Rattle.bm_arena.specs.Triplets.{triplet_view};

use crate::predicted_slots::PredictedSlots;
use crate::slot_index::SlotIndex;
use bm_base::{BlockInfo, HashSecret, Marks, Refusal, StorageId, Tag};
use bm_maps::{NO_LINK, SlotLink};
use indexmap::IndexMap;
use slab::Slab;
use smallvec::SmallVec;
use std::alloc::Global;
use std::marker::Model;

/// The number of a slot of one arena. It stays the slot of its block until the entry is dropped.
pub type Slot = usize;

/// The blocks of one shard with their replicas, and for each storage the list of the slots of its
/// blocks.
///
/// A contract sees it as `Contents`: the block in each slot, the slots of the block numbers, and
/// the list of each storage. `Contents` also has the slot of the delimiter, the number of steps and
/// a bound of the slots. Only `new`, `with_secret`, `reserve_heads`, `reserve_triplet` and
/// `add_entry` take memory; every other call takes none and succeeds under its conditions. A
/// refused call changes nothing that a contract sees, but a refused `reserve_heads` may leave heads
/// with empty lists. A list operation takes a constant number of steps, and a scan of the few
/// replicas of the blocks that it touches. A look-up, a list operation and `add_entry` hash a
/// number once at most. A look-up does not hash a number whose slot is predicted right, or that is
/// above all that were added.
#[derive(Drop)]
pub struct Arena {
    pub(crate) slots: Slab<BlockEntry>,
    // The slot of each block number.
    pub(crate) ids: SlotIndex,
    // The first slot of each storage's list.
    pub(crate) heads: IndexMap<u32, SlotLink, HashSecret>,
    // The index in `heads` of the storage whose list changed last: a hint, since most changes in a
    // row are of one list.
    pub(crate) last_head: usize,
    // The slot of an entry that is no block, and marks a position in a list.
    pub(crate) delimiter: usize,
    pub(crate) steps: u64,
    // One above the greatest slot that was ever held.
    pub(crate) bound: usize,
    pub(crate) alloc: Global,
    // Where the slots of most block numbers are.
    pub(crate) predicted: PredictedSlots,
}

impl Model for Arena {
    ghost use Rattle.bm_arena.specs.Contents.{Contents};

    ghost Value = { Contents };

    ghost use Rattle.bm_arena.specs.Triplets.{slot_views};
    ghost use Rattle.bm_arena.specs.Inside.{lists_from, IsBoundedArena};

    ghost view = { λ a. record {
      blocks = slot_views a.slots;
      ids = a.ids;
      lists = lists_from a.slots a.heads.entries;
      delimiter = a.delimiter;
      steps = a.steps;
      bound = a.bound;
    } };

    ghost invariant = { λ a. IsBoundedArena a.slots a.ids a.heads.entries a.delimiter a.bound };
}

// The next number; the last value stays.
pub(crate) fn saturating_next(steps: u64) -> u64
    ensures { result ≡ saturating_next steps }
{
    if steps < u64::MAX { steps + 1 } else { steps }
}

impl Arena {
    /// An arena with no block, no head and no steps, whose tables hash by no secret. `Memory`.
    pub fn new(alloc: Global) -> Result<Arena, Refusal>
        ensures ids { IfOk result (λ a. a.ids ≡ []) }
        ensures lists { IfOk result (λ a. a.lists ≡ []) }
        ensures steps { IfOk result (λ a. a.steps ≡ 0) }
        ensures blocks { IfOk result (λ a. (slot : ℕ) → slot ≢ a.delimiter
            → block_at a slot ≡ None) }
        ensures delimiter { IfOk result (λ a. block_at a a.delimiter ≡ Some (empty_block 0)) }
        ensures bound { IfOk result (λ a. a.bound ≡ a.delimiter + 1) }
        ensures replicas { IfOk result (λ a. replicas_of a ≡ empty) }
        ensures known { IfOk result (λ a. blocks_of a ≡ empty) }
        ensures lawful { IfOk result (λ a. IsLawful a) }
        ensures refused { IfErr result (λ e. e ≡ Memory) }
    {
        Arena::with_secret(alloc, HashSecret::none())
    }

    /// As [`Arena::new`], but the tables hash by this secret: for numbers that may have been chosen
    /// so that they collide. Nothing that a contract sees depends on it. `Memory`.
    pub fn with_secret(alloc: Global, secret: HashSecret) -> Result<Arena, Refusal>
        ensures ids { IfOk result (λ a. a.ids ≡ []) }
        ensures lists { IfOk result (λ a. a.lists ≡ []) }
        ensures steps { IfOk result (λ a. a.steps ≡ 0) }
        ensures blocks { IfOk result (λ a. (slot : ℕ) → slot ≢ a.delimiter
            → block_at a slot ≡ None) }
        ensures delimiter { IfOk result (λ a. block_at a a.delimiter ≡ Some (empty_block 0)) }
        ensures bound { IfOk result (λ a. a.bound ≡ a.delimiter + 1) }
        ensures replicas { IfOk result (λ a. replicas_of a ≡ empty) }
        ensures known { IfOk result (λ a. blocks_of a ≡ empty) }
        ensures lawful { IfOk result (λ a. IsLawful a) }
        ensures refused { IfErr result (λ e. e ≡ Memory) }
    {
        let mut slots = Slab::new(alloc);
        slots.reserve(1)?;
        let delimiter = slots.insert_reserved(BlockEntry {
            id: 0,
            info: None,
            triplets: SmallVec::new(alloc),
        });
        Ok(Arena {
            slots,
            ids: SlotIndex::new(alloc, secret),
            heads: IndexMap::with_hasher(alloc, secret),
            last_head: 0,
            delimiter,
            steps: 0,
            bound: delimiter + 1,
            alloc,
            predicted: PredictedSlots::new(),
        })
    }

    /// The allocator that it was made with.
    pub fn allocator(&self) -> Global {
        self.alloc
    }

    /// For proofs alone: an arena is lawful at all times. Does nothing when it runs.
    pub fn show_invariant(&self)
        ensures { IsLawful self.now }
    {
        let _ = &self.slots;
    }

    /// The number of list operations since `new`: one for each link, unlink or move, and for each
    /// insertion and removal of the delimiter. It stays at its greatest value, 2^64 - 1.
    pub fn steps(&self) -> u64
        ensures { result ≡ self.now.steps }
    {
        self.steps
    }
}

/// A replica of a block: its storage, the neighbours of the block in that storage's list, and its
/// marks.
#[derive(Clone, Copy)]
pub struct Triplet {
    pub(crate) storage: u32,
    pub(crate) previous: SlotLink,
    pub(crate) next: SlotLink,
    pub(crate) marks: Marks,
}

impl Triplet {
    /// Its storage and its marks.
    #[inline]
    pub fn replica(&self) -> (StorageId, Marks)
        ensures { result ≡ triplet_view self.now }
    {
        (StorageId(self.storage), self.marks)
    }
}

// Fills the unused inline elements of an entry.
impl Default for Triplet {
    fn default() -> Triplet {
        Triplet {
            storage: 0,
            previous: NO_LINK,
            next: NO_LINK,
            marks: NO_MARKS,
        }
    }
}

/// The marks of the delimiter, which mean nothing.
pub(crate) const NO_MARKS: Marks = Marks {
    tag: Tag::Good,
    excess: false,
    ordered: false,
};

/// The number of replicas that an entry holds inline; more of them are in memory of their own.
pub(crate) const INLINE_TRIPLETS: usize = 3;

/// A block, or a number that is only reserved. The triplets are the first field: a write of a
/// neighbour's link touches only them, and so fewer cache lines.
#[derive(Drop)]
pub(crate) struct BlockEntry {
    pub(crate) triplets: SmallVec<Triplet, INLINE_TRIPLETS>,
    pub(crate) id: u64,
    pub(crate) info: Option<BlockInfo>,
}
