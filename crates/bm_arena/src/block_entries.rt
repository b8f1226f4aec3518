// The entries of an arena: one for each block number that is known, reported or reserved.
ghost use Rattle.std.specs.Prelude.{◌≡◌, ◌≢◌, ◌≤◌, ◌==◌, ℕ, if◌then◌else◌, IsSome, IsSomeAnd, None, Some, [], IfOk, IfErr, OnOk, OnErr, IsOk};
ghost use Rattle.bm_base.specs.Words.{insert, replica_at};
ghost use Rattle.bm_base.specs.declared.refusal.Refusal.TheVariants.{Memory};
ghost use Rattle.bm_arena.specs.Triplets.{Block, change_block};
ghost use Rattle.bm_arena.specs.Contents.{dropped, entry_capacity, with_entry_capacity, with_marks, with_info, block_at, marks_at, known_of, slot_of, IsAdded, HasCapacity, IsLawful, KeepsAllBut};
ghost use Rattle.bm_arena.specs.HeldMaps.{replicas_of, blocks_of, with_known};

use crate::arena::{Arena, BlockEntry, Slot};
use crate::links;
use bm_base::{BlockId, BlockInfo, Marks, Refusal, StorageId};
use smallvec::SmallVec;

impl Arena {
    /// The slot of a block number: the one that it has, or a new one whose entry has neither block
    /// nor replica. A known number is never refused. `Memory`, also if all 2^32 - 1 slots of an
    /// arena are held, since the slab may not grow past what a link of 32 bits can name.
    pub fn add_entry(&mut self, id: BlockId) -> Result<Slot, Refusal>
        ensures there { IsSome (slot_of self.old id) → IsOk result }
        ensures known { IfOk result (λ slot. IsSome (slot_of self.old id)
            → (slot_of self.old id ≡ Some slot) × (self.new ≡ self.old)) }
        ensures added { IfOk result (λ slot. slot_of self.old id ≡ None
            → IsAdded self.old self.new id slot) }
        ensures replicas { replicas_of self.new ≡ replicas_of self.old }
        ensures blocks { blocks_of self.new ≡ blocks_of self.old }
        ensures refused { IfErr result (λ e. e ≡ Memory) }
        ensures unchanged { OnErr result (self.new ≡ self.old) }
        ensures lawful { IsLawful self.new }
    {
        self.show_invariant();
        if let Some(slot) = self.find_predicted(id) {
            return Ok(slot);
        }
        let (slot, is_new) = self.ids.slot_for(&mut self.slots, id.0)?;
        if is_new {
            self.slots.insert_reserved(BlockEntry {
                id: id.0,
                info: None,
                triplets: SmallVec::new(self.alloc),
            });
            self.bound = self.bound.max(slot + 1);
            self.predicted.add(id.0, slot);
        }
        Ok(slot)
    }

    /// Drops the entry in `slot`, which has no replica. The entry that was last in the order of
    /// `slot_at` takes its index. Takes no memory.
    pub fn drop_entry(&mut self, slot: Slot)
        requires no_replicas { IsSomeAnd (block_at self.old slot) (λ b. b.replicas ≡ []) }
        requires entry { slot ≢ self.old.delimiter }
        ensures after { (b : Block) → block_at self.old slot ≡ Some b
            → self.new ≡ dropped self.old slot b.id }
        ensures entries { (other : ℕ)
            → block_at self.new other ≡ (if other == slot then None else block_at self.old other) }
        ensures numbers { (b : Block) → block_at self.old slot ≡ Some b → (id : ℕ)
            → slot_of self.new id ≡ (if b.id == id then None else slot_of self.old id) }
        ensures lists { self.new.lists ≡ self.old.lists }
        ensures lawful { IsLawful self.new }
    {
        if let Some(id) = links::remove_entry(&mut self.slots, slot) {
            self.ids.remove(id);
            self.predicted.drop(id, slot);
        }
    }

    /// Reserves capacity for one more replica of the block in `slot`, for `link_front`. If it is
    /// there already, nothing is done; so up to three replicas take no memory. `Memory`.
    pub fn reserve_triplet(&mut self, slot: Slot) -> Result<(), Refusal>
        requires { IsSome (block_at self.old slot) }
        ensures capacity { OnOk result (HasCapacity self.new slot) }
        ensures succeeds { HasCapacity self.old slot → IsOk result }
        ensures had_capacity { HasCapacity self.old slot → self.new ≡ self.old }
        ensures rest { self.new
            ≡ record self.old {
              blocks = change_block (with_entry_capacity (entry_capacity self.new slot))
                  self.old.blocks slot;
            } }
        ensures grows { entry_capacity self.old slot ≤ entry_capacity self.new slot }
        ensures marks { (other storage : ℕ)
            → marks_at self.new other storage ≡ marks_at self.old other storage }
        ensures others { (other : ℕ) → other ≢ slot
            → block_at self.new other ≡ block_at self.old other }
        ensures known { known_of (block_at self.new slot) ≡ known_of (block_at self.old slot) }
        ensures replicas { replicas_of self.new ≡ replicas_of self.old }
        ensures blocks { blocks_of self.new ≡ blocks_of self.old }
        ensures refused { IfErr result (λ e. e ≡ Memory) }
        ensures unchanged { OnErr result (self.new ≡ self.old) }
        ensures lawful { IsLawful self.new }
    {
        Ok(links::reserve_triplets(&mut self.slots, slot, 1)?)
    }

    /// Sets the information on the block in `slot`: None for an unknown block. All else stays.
    /// Takes no memory.
    pub fn set_info(&mut self, slot: Slot, info: Option<BlockInfo>)
        ensures after { self.new
            ≡ record self.old { blocks = change_block (with_info info) self.old.blocks slot } }
        ensures entry { (b : Block) → block_at self.old slot ≡ Some b
            → block_at self.new slot ≡ Some (with_info info b) }
        ensures marks { (other storage : ℕ)
            → marks_at self.new other storage ≡ marks_at self.old other storage }
        ensures rest { KeepsAllBut slot self.old self.new }
        ensures replicas { replicas_of self.new ≡ replicas_of self.old }
        ensures blocks { (id : ℕ) → slot_of self.old id ≡ Some slot
            → blocks_of self.new ≡ with_known (blocks_of self.old) id info }
        ensures lawful { IsLawful self.new }
    {
        links::set_info(&mut self.slots, slot, info);
    }

    /// Sets the marks of the replica on `storage` of the block in `slot`; without such a replica
    /// nothing changes. Nothing else changes. Takes no memory.
    pub fn set_marks(&mut self, slot: Slot, storage: StorageId, marks: Marks)
        ensures after { self.new
            ≡ record self.old {
              blocks = change_block (with_marks storage marks)
                  self.old.blocks slot;
            } }
        ensures marks { IsSome (marks_at self.old slot storage)
            → marks_at self.new slot storage ≡ Some marks }
        ensures other_storages { (other : ℕ) → other ≢ storage
            → marks_at self.new slot other ≡ marks_at self.old slot other }
        ensures others { (other : ℕ) → other ≢ slot
            → block_at self.new other ≡ block_at self.old other }
        ensures known { known_of (block_at self.new slot) ≡ known_of (block_at self.old slot) }
        ensures rest { KeepsAllBut slot self.old self.new }
        ensures replicas { (id : ℕ) → slot_of self.old id ≡ Some slot
            → IsSome (marks_at self.old slot storage) →
            replicas_of self.new ≡ insert (replicas_of self.old) (replica_at id storage) marks }
        ensures blocks { blocks_of self.new ≡ blocks_of self.old }
        ensures lawful { IsLawful self.new }
    {
        links::set_marks(&mut self.slots, slot, storage.0, marks);
    }

    /// As `set_marks`, with a guess of that replica's index among the block's, from 0 on as
    /// `triplet_at` has them. Any guess will do: a right one saves a scan of all of them, and after
    /// a wrong one they are scanned. Takes no memory.
    pub fn set_marks_near(&mut self, slot: Slot, storage: StorageId, marks: Marks, guess: usize)
        ensures after { self.new
            ≡ record self.old {
              blocks = change_block (with_marks storage marks)
                  self.old.blocks slot;
            } }
        ensures marks { IsSome (marks_at self.old slot storage)
            → marks_at self.new slot storage ≡ Some marks }
        ensures other_storages { (other : ℕ) → other ≢ storage
            → marks_at self.new slot other ≡ marks_at self.old slot other }
        ensures others { (other : ℕ) → other ≢ slot
            → block_at self.new other ≡ block_at self.old other }
        ensures known { known_of (block_at self.new slot) ≡ known_of (block_at self.old slot) }
        ensures rest { KeepsAllBut slot self.old self.new }
        ensures replicas { (id : ℕ) → slot_of self.old id ≡ Some slot
            → IsSome (marks_at self.old slot storage) →
            replicas_of self.new ≡ insert (replicas_of self.old) (replica_at id storage) marks }
        ensures blocks { blocks_of self.new ≡ blocks_of self.old }
        ensures lawful { IsLawful self.new }
    {
        links::set_marks_near(&mut self.slots, slot, storage.0, marks, guess);
    }
}
