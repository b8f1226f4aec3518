// The wishes and deletes of all shards' parts, merged in one order: gathered in one vector, and
// sorted once. The sort makes use of the order that each part has already.
ghost use Rattle.std.specs.Prelude.{◌≡◌, ◌++◌, map, IfOk, IfErr, OnOk, T, flat_map};
ghost use Rattle.bm_base.specs.declared.refusal.Refusal.TheVariants.{Memory};
ghost use Rattle.std.specs.FinMap.{is_sorted};
ghost use Rattle.bm_base.specs.Ordered.{pair_cmp};
ghost use Rattle.bm_base.specs.Choices as choices;
ghost use Rattle.bm_base.specs.RoundParts as parts;
ghost use Rattle.bm_round.specs.KeyedParts as merging;

use bm_base::{Delete, Refusal, RoundPart, Wish};
use bm_parts::sort_key::Key;
use std::alloc::{AllocError, Global};

/// The wishes of all parts, by level and then by block; of two with one level and block the later
/// part's. `Memory` where a list cannot grow; nothing else is refused. If each part has them in
/// that order, each of n wishes in k parts is compared about log k times. None is copied.
pub fn merge_wishes<'a>(alloc: Global, parts: &'a [RoundPart]) -> Result<Vec<&'a Wish>, Refusal>
    ensures wishes { IfOk result
        (λ v. merging.referenced_wishes v.items ≡ choices.merged_wishes parts.now) }
    ensures ascending { IfOk result
        (λ v. T (is_sorted pair_cmp (map merging.keyed_wish (merging.referenced_wishes v.items)))) }
    ensures refused { IfErr result (λ e. e ≡ Memory) }
{
    let mut wishes = gather_wishes(alloc, parts)?;
    // Reversed and stably sorted, the last of equal keys comes first, and `dedup` keeps it.
    wishes.reverse();
    wishes.sort_by_key(|wish| wish_key(*wish))?;
    wishes.dedup_by_key(|wish| wish_key(*wish));
    Ok(wishes)
}

/// The deletes of all parts, by storage and then by block, each once.
pub(crate) fn merge_deletes(alloc: Global, parts: &[RoundPart]) -> Result<Vec<Delete>, Refusal>
    ensures deletes { IfOk result (λ v. v.items ≡ choices.merged_deletes parts.now) }
    ensures refused { IfErr result (λ e. e ≡ Memory) }
{
    let mut deletes = gather_deletes(alloc, parts)?;
    // The steps are those for wishes, so that one lemma proves both.
    deletes.reverse();
    deletes.sort_by_key(|delete| delete_key(delete))?;
    deletes.dedup_by_key(|delete| delete_key(delete));
    Ok(deletes)
}

fn wish_key(wish: &Wish) -> Key
    ensures { result ≡ parts.wish_key wish.now }
{
    (wish.level.number() as u64, wish.block.0)
}

fn delete_key(delete: &Delete) -> Key
    ensures { result ≡ parts.delete_key delete.now }
{
    (delete.storage.0 as u64, delete.block.0)
}

/// References to the wishes of all parts, one part after another.
fn gather_wishes<'a>(alloc: Global, parts: &'a [RoundPart]) -> Result<Vec<&'a Wish>, AllocError>
    ensures { IfOk result
        (λ v. merging.referenced_wishes v.items ≡ flat_map (λ p. p.wishes) parts.now) }
{
    let mut all = Vec::new(alloc);
    for part in parts {
        push_wishes(part.wishes.as_slice(), &mut all)?;
    }
    Ok(all)
}

/// References to these wishes, in the same order.
pub(crate) fn references_to<'a>(
    alloc: Global,
    wishes: &'a [Wish],
) -> Result<Vec<&'a Wish>, AllocError>
    ensures { IfOk result (λ v. merging.referenced_wishes v.items ≡ wishes.now) }
{
    let mut all = Vec::with_capacity(alloc, wishes.len())?;
    push_wishes(wishes, &mut all)?;
    Ok(all)
}

fn push_wishes<'a>(wishes: &'a [Wish], all: &mut Vec<&'a Wish>) -> Result<(), AllocError>
    ensures { OnOk result (merging.referenced_wishes all.new.items
        ≡ merging.referenced_wishes all.old.items ++ wishes.now) }
{
    for wish in wishes {
        all.push(wish)?;
    }
    Ok(())
}

/// The deletes of all parts, one part after another.
fn gather_deletes(alloc: Global, parts: &[RoundPart]) -> Result<Vec<Delete>, AllocError>
    ensures { IfOk result (λ v. v.items ≡ flat_map (λ p. p.deletes) parts.now) }
{
    let mut all = Vec::new(alloc);
    for part in parts {
        all.extend_from_slice(part.deletes.as_slice())?;
    }
    Ok(all)
}
