//! One version, as locators read it.
ghost use Rattle.std.specs.Prelude.{◌≡◌};
ghost use Rattle.bm_view.specs.Version.{AscendsById, places_in};

use bm_base::{BlockId, Places};
use std::marker::Model;

/// The number of accepted calls, and where each block was then. It never changes. A contract sees
/// the number and the list of rows.
#[derive(Drop)]
pub struct Table {
    calls: u64,
    rows: Vec<(BlockId, Places)>,
}

impl Model for Table {
    ghost use Rattle.bm_base.specs.Promises.Versions.{Version};
    ghost use Rattle.bm_view.specs.Version.{AscendsById};

    ghost Value = { Version };

    ghost view = { λ t. record { calls = t.calls; rows = t.rows.items } };

    ghost invariant = { λ t. AscendsById t.rows.items };
}

impl Table {
    /// The version after `calls` accepted calls, any u64, with these rows, sorted by block number.
    /// A row without places means the same as no row. Takes no memory.
    pub fn new(calls: u64, rows: Vec<(BlockId, Places)>) -> Table
        requires { AscendsById rows.items }
        ensures { result ≡ record { calls = calls; rows = rows.items } }
    {
        Table { calls, rows }
    }

    /// The number of accepted calls.
    pub fn calls(&self) -> u64
        ensures { result ≡ self.now.calls }
    {
        self.calls
    }

    /// The places of the block. A block without a row has no places.
    pub fn places(&self, id: BlockId) -> Places
        ensures { result ≡ places_in self.now.rows id }
    {
        match self.rows.binary_search_by_key(&id, |row| row.0) {
            Ok(at) => self.rows[at].1,
            Err(_) => Places::none(),
        }
    }
}
