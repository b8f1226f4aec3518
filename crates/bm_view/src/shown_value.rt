//! The value that is shown: a table, and what the journal was when it was proposed.
ghost use Rattle.std.specs.Prelude.{◌≡◌, ◌≤◌, ◌<◌, ◌+◌, ◌*◌, length, IfOk};
ghost use Rattle.bm_base.specs.Words.{arc_value};
ghost use Rattle.bm_view.specs.History.{last_of, shown_in, IsHistory};

use crate::count::Count;
use crate::journal::Evidence;
use crate::table::Table;
use left_right::Absorb;
use std::alloc::AllocError;
use std::marker::Model;
use std::sync::Arc;

/// The value that readers find. `left_right` keeps two of them; both refer to one table. A contract
/// sees the evidence.
#[derive(Drop)]
pub struct Shown {
    table: Arc<Table>,
    /// The journal up to the proposal of the table. It has no bytes.
    evidence: Evidence,
    /// The number of proposals, including this one.
    number: Count,
}

impl Model for Shown {
    ghost use Rattle.std.specs.Prelude.{◌≡◌, ◌≤◌, ◌<◌, ◌+◌, ◌*◌, length};
    ghost use Rattle.std.specs.Arc.{arc_value};
    ghost use Rattle.bm_view.specs.Rule.{Evidence};
    ghost use Rattle.bm_view.specs.History.{last_of, shown_in, IsHistory};

    ghost Value = { Evidence };

    ghost view = { λ s. s.evidence };

    ghost invariant = { λ s.
        (2 * s.number ≤ length s.evidence.log + 1)
        × (0 < length s.evidence.log)
        × (last_of (shown_in s.evidence.log) ≡ arc_value s.table)
        × IsHistory (shown_in s.evidence.log) };
}

impl Shown {
    pub fn new(table: Arc<Table>, evidence: Evidence, number: Count) -> Shown
        requires number { (2 * number ≤ length evidence.log + 1) × (0 < length evidence.log) }
        requires table { last_of (shown_in evidence.log) ≡ arc_value table }
        requires history { IsHistory (shown_in evidence.log) }
        ensures { result ≡ evidence }
    {
        Shown {
            table,
            evidence,
            number,
        }
    }

    // One more reference to the same table.
    pub fn copy(&self) -> Result<Shown, AllocError>
        ensures { IfOk result (λ s. s ≡ self.now) }
    {
        Ok(Shown {
            table: Arc::try_clone(&self.table)?,
            evidence: self.evidence.copy(),
            number: self.number.copy()?,
        })
    }

    // Two more references to the same table.
    pub fn copy_twice(&self) -> Result<(Shown, Shown), AllocError>
        ensures { IfOk result (λ copies. (copies.0 ≡ self.now) × (copies.1 ≡ self.now)) }
    {
        let first = self.copy()?;
        match self.copy() {
            Ok(second) => Ok((first, second)),
            Err(error) => {
                drop(first);
                Err(error)
            }
        }
    }

    pub fn table(&self) -> &Arc<Table>
        ensures { arc_value result.now ≡ last_of (shown_in self.now.log) }
    {
        &self.table
    }

    pub fn evidence(&self) -> Evidence
        ensures same { result ≡ self.now }
        ensures history { IsHistory (shown_in self.now.log) }
    {
        self.evidence.copy()
    }

    pub fn number(&self) -> &Count
        ensures { (2 * result.now ≤ length self.now.log + 1) × (0 < length self.now.log) }
    {
        &self.number
    }
}

// An operation replaces the current value by itself.
impl Absorb<Shown> for Shown {
    type State = Evidence;

    ghost state = { λ s. s };

    ghost applied = { λ _ next. next };

    fn absorb_first(&mut self, operation: &Shown, _other: &Shown) -> Result<(), AllocError> {
        *self = operation.copy()?;
        Ok(())
    }

    fn absorb_second(&mut self, operation: Shown, _other: &Shown) -> Result<(), Shown> {
        *self = operation;
        Ok(())
    }
}
