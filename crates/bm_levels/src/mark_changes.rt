// Changes the marks of all replicas of one block in the same way.
ghost use Rattle.std.specs.Prelude.{◌≡◌, false, if◌then◌else◌};
ghost use Rattle.bm_base.specs.Words.{is_good};
ghost use Rattle.bm_base.specs.declared.replica.Tag.TheVariants.{Stale};
ghost use Rattle.bm_arena.specs.Contents.{block_at, known_of, KeepsAllBut, IsLawful};
ghost use Rattle.bm_arena.specs.HeldMaps.{replicas_at};
ghost use Rattle.bm_levels.specs.Changes.{changed, all_changed};

use bm_arena::{Arena, Slot};
use bm_base::{Marks, Tag};

/// A change of the marks of all replicas of a block.
#[derive(Clone, Copy)]
pub(crate) enum MarkChange {
    /// The block is deleted: they are stray, and none is in excess.
    Deleted,
    /// The block has another stamp: the good ones are stale, and none is in excess.
    Restamped,
    /// A round begins: those in excess whose delete was not ordered count again.
    RoundBegun,
}

impl MarkChange {
    /// The marks of a replica after the change.
    #[tactic(auto, unfolding(crate::specs::Changes::changed))]
    fn apply(self, marks: Marks) -> Marks
        ensures { result ≡ changed self marks }
    {
        match self {
            MarkChange::Deleted => Marks {
                tag: Tag::Stray,
                excess: false,
                ordered: marks.ordered,
            },
            MarkChange::Restamped => Marks {
                tag: tag_after_restamp(marks.tag),
                excess: false,
                ordered: marks.ordered,
            },
            MarkChange::RoundBegun => marks.with_excess_reset(),
        }
    }
}

/// A good replica is stale once its block has another stamp.
fn tag_after_restamp(tag: Tag) -> Tag
    ensures { result ≡ (if is_good tag then Stale else tag) }
{
    match tag {
        Tag::Good => Tag::Stale,
        other => other,
    }
}

/// Changes the marks of each replica of the block at a slot; nothing else changes. Unchanged marks
/// are not written again. Returns whether any changed. Takes no memory.
pub(crate) fn change_marks(arena: &mut Arena, slot: Slot, change: MarkChange) -> bool
    ensures replicas { replicas_at arena.new slot
        ≡ all_changed (changed change) (replicas_at arena.old slot) }
    ensures known { known_of (block_at arena.new slot) ≡ known_of (block_at arena.old slot) }
    ensures rest { KeepsAllBut slot arena.old arena.new }
    ensures same { result ≡ false → arena.new ≡ arena.old }
    ensures lawful { IsLawful arena.new }
{
    arena.show_invariant();
    let mut is_changed = false;
    for index in 0..arena.triplet_count(slot) {
        if let Some((storage, marks)) = arena.triplet_at(slot, index) {
            let after = change.apply(marks);
            if !after.is_same(marks) {
                arena.set_marks_near(slot, storage, after, index);
                is_changed = true;
            }
        }
    }
    arena.show_invariant();
    is_changed
}
