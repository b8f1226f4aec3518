// The remaining bytes of a heartbeat in canonical form.
ghost use Rattle.std.specs.Prelude.{◌≡◌, ◌++◌, ◌<◌, IfSome, length};
ghost use Rattle.bm_lines.specs.CallText.{remaining_text};
ghost use Rattle.bm_lines.specs.FittingNumbers.{FitsRemaining};

use super::canonical_lists::CanonicalItem;
use super::canonical_numbers::{after, number_then, small_then};
use bm_base::{Remaining, StorageId};

impl CanonicalItem for Remaining {
    ghost written = { remaining_text };

    ghost is_fit = { FitsRemaining };

    fn item_then(bytes: &[u8]) -> Option<(Remaining, &[u8])> {
        remaining_then(bytes)
    }
}

/// The remaining bytes of a storage that these bytes begin with, and the bytes after them.
#[tactic(auto, unfolding(crate::specs::CallText::remaining_text))]
fn remaining_then(bytes: &[u8]) -> Option<(Remaining, &[u8])>
    ensures text { IfSome result (λ p. bytes.now ≡ remaining_text p.0 ++ p.1.now) }
    ensures fits { IfSome result (λ p. FitsRemaining p.0) }
    ensures shorter { IfSome result (λ p. length p.1.now < length bytes.now) }
{
    let (storage, rest) = small_then(bytes, b"[")?;
    let (remaining, rest) = number_then(rest, b",")?;
    let behind = after(rest, b"]")?;
    let storage = StorageId(storage);
    Some((Remaining { storage, remaining }, behind))
}
