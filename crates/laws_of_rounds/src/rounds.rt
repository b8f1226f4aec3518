// Rounds one after another, with no notice between them.
ghost use Rattle.laws_of_rounds.specs.Rounds as law;

/// Without notices, no later round commands a delete again.
pub fn no_delete_twice()
    ensures { law.NoDeleteTwice }
{}

/// Without notices, no round commands another copy of a transfer's block to any storage of its
/// target's node, until `pend` rounds later.
pub fn no_transfer_twice()
    ensures { law.NoTransferTwice }
{}
