// The entries of a report in canonical form.
ghost use Rattle.std.specs.Prelude.{◌≡◌, ◌++◌, ◌<◌, IfSome, length};
ghost use Rattle.bm_lines.specs.CallText.{entry_text};
ghost use Rattle.bm_lines.specs.FittingNumbers.{FitsEntry};

use super::canonical_lists::CanonicalItem;
use super::canonical_numbers::{after, number_then};
use bm_base::{BlockId, Entry, Gen, Stamp};

impl CanonicalItem for Entry {
    ghost written = { entry_text };

    ghost is_fit = { FitsEntry };

    fn item_then(bytes: &[u8]) -> Option<(Entry, &[u8])> {
        entry_then(bytes)
    }
}

/// The entry that these bytes begin with, and the bytes after it.
fn entry_then(bytes: &[u8]) -> Option<(Entry, &[u8])>
    ensures text { IfSome result (λ p. bytes.now ≡ entry_text p.0 ++ p.1.now) }
    ensures fits { IfSome result (λ p. FitsEntry p.0) }
    ensures shorter { IfSome result (λ p. length p.1.now < length bytes.now) }
{
    let (from, rest) = number_then(bytes, b"[")?;
    let (second, rest) = number_then(rest, b",")?;
    let (third, rest) = number_then(rest, b",")?;
    if let Some(behind) = after(rest, b"]") {
        return Some((entry_of(from, from, second, third), behind));
    }
    // A run of blocks. Canonical form has three numbers for a run of one block.
    if from == second {
        return None;
    }
    let (len, rest) = number_then(rest, b",")?;
    let behind = after(rest, b"]")?;
    Some((entry_of(from, second, third, len), behind))
}

#[inline(always)]
fn entry_of(from: u64, to: u64, generation: u64, len: u64) -> Entry
    ensures from { result.from ≡ from }
    ensures to { result.to ≡ to }
    ensures generation { result.stamp.generation ≡ generation }
    ensures len { result.stamp.len ≡ len }
{
    Entry {
        from: BlockId(from),
        to: BlockId(to),
        stamp: Stamp {
            generation: Gen(generation),
            len,
        },
    }
}
