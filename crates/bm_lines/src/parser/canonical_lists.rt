// Lists of a line in canonical form.
ghost use Rattle.std.specs.Prelude.{◌≡◌, ◌++◌, ◌<◌, ℕ, List, All, IfSome, codes, length};
ghost use Rattle.bm_base.specs.Words.{IfFound};
ghost use Rattle.bm_lines.specs.CallText.{list_text, with_commas};

use super::canonical_numbers::after;
use std::alloc::{AllocError, Global};

/// An item of a list in canonical form.
pub trait CanonicalItem: Drop + Sized {
    /// How an item is written.
    ghost written: { Self → List ℕ };

    /// Whether its numbers fit their types.
    ghost is_fit: { Self → Type 0 };

    /// The item that these bytes begin with, and the bytes after it.
    fn item_then(bytes: &[u8]) -> Option<(Self, &[u8])>
        ensures text { IfSome result (λ p. bytes.now ≡ written p.0 ++ p.1.now) }
        ensures fits { IfSome result (λ p. is_fit p.0) }
        ensures shorter { IfSome result (λ p. length p.1.now < length bytes.now) };
}

/// The list field of this name, and the bytes after it.
pub fn list_then<'l, T: CanonicalItem>(
    alloc: Global,
    fields: &'l [u8],
    name: &[u8],
) -> Result<Option<(Vec<T>, &'l [u8])>, AllocError>
    ensures text { IfFound result (λ p. fields.now
        ≡ list_text name.now T.written p.0.items ++ p.1.now) }
    ensures fits { IfFound result (λ p. All T.is_fit p.0.items) }
{
    let Some(list) = begin_list(fields, name) else {
        return Ok(None);
    };
    let Some((items, rest)) = items_then(alloc, list)? else {
        return Ok(None);
    };
    let Some(end) = after(rest, b"]") else {
        return Ok(None);
    };
    Ok(Some((items, end)))
}

/// The bytes after the name and the bracket of a list field.
#[inline(always)]
fn begin_list<'l>(fields: &'l [u8], name: &[u8]) -> Option<&'l [u8]>
    ensures { IfSome result (λ list. fields.now
        ≡ codes ",\"" ++ (name.now ++ (codes "\":[" ++ list.now))) }
{
    let named = after(fields, b",\"")?;
    let behind = after(named, name)?;
    after(behind, b"\":[")
}

/// Items with commas between them, and the bytes after them.
fn items_then<'l, T: CanonicalItem>(
    alloc: Global,
    list: &'l [u8],
) -> Result<Option<(Vec<T>, &'l [u8])>, AllocError>
    ensures text { IfFound result
        (λ p. list.now ≡ with_commas T.written p.0.items ++ p.1.now) }
    ensures fits { IfFound result (λ p. All T.is_fit p.0.items) }
{
    let mut items = Vec::new(alloc);
    let Some((first, mut rest)) = T::item_then(list) else {
        return Ok(Some((items, list)));
    };
    items.push(first)?;
    while let Some(next) = after(rest, b",") {
        let Some((item, behind)) = T::item_then(next) else {
            return Ok(None);
        };
        items.push(item)?;
        rest = behind;
    }
    Ok(Some((items, rest)))
}
