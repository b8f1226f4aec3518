// A set of slots to be scanned, each once.
ghost use Rattle.std.specs.Prelude.{◌≡◌, ◌<◌, ◌↔◌, ℕ, All, IfOk, IfErr};
ghost use Rattle.bm_base.specs.declared.refusal.Refusal.TheVariants.{Memory};
ghost use Rattle.bm_maps.specs.SlotLists.{IsMember, Distinct};

use bm_base::Refusal;
use bm_queues::SlotSet;
use std::alloc::{AllocError, Global};

/// The set of these slots, which are all below `bound`. [`bm_arena::Arena::slot_bound`] gives a
/// bound.
pub fn note_slots(alloc: Global, slots: &[usize], bound: usize) -> Result<SlotSet, Refusal>
    requires { All (λ slot. slot < bound) slots.now }
    ensures members { IfOk result (λ set. (slot : ℕ)
        → IsMember slot set.slots ↔ IsMember slot slots.now) }
    ensures refused { IfErr result (λ e. e ≡ Memory) }
{
    let mut set = SlotSet::new(alloc)?;
    set.grow_to(bound)?;
    for slot in slots {
        set.insert(*slot);
    }
    Ok(set)
}

/// The slots of a set, the one inserted last first.
pub fn in_order(alloc: Global, set: &SlotSet) -> Result<Vec<usize>, AllocError>
    ensures slots { IfOk result (λ found. found.items ≡ set.now.slots) }
    ensures once { IfOk result (λ found. Distinct found.items) }
{
    set.show_invariant();
    let mut found = Vec::new(alloc);
    for slot in set.walk() {
        found.push(slot)?;
    }
    Ok(found)
}
