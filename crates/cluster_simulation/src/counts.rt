// The counts of each round.

use bm_base::Commands;

/// The counts after a round.
#[derive(Clone, Copy)]
pub struct Counts {
    pub round: u32,
    /// The number of blocks at each level.
    pub highest: u64,
    pub very_under_replicated: u64,
    pub under_replicated: u64,
    pub badly_distributed: u64,
    pub missing: u64,
    /// The number of pending copies.
    pub pending: u64,
    /// The numbers of replicas in excess, and of stale or bad ones.
    pub excess: u64,
    pub corrupt: u64,
    /// The numbers of commands of the round.
    pub copies: u64,
    pub deletes: u64,
    /// The number of calls that the manager refused since the previous round.
    pub refused: u64,
}

impl Counts {
    pub fn new(round: u32) -> Counts {
        Counts {
            round,
            highest: 0,
            very_under_replicated: 0,
            under_replicated: 0,
            badly_distributed: 0,
            missing: 0,
            pending: 0,
            excess: 0,
            corrupt: 0,
            copies: 0,
            deletes: 0,
            refused: 0,
        }
    }

    /// Counts the commands of the round to all nodes.
    pub fn add_commands(&mut self, commands: &Commands) {
        for node in commands.nodes.as_slice() {
            let copies = node.transfers.as_slice().len() as u64;
            let deletes = node.deletes.as_slice().len() as u64;
            self.copies = self.copies.saturating_add(copies);
            self.deletes = self.deletes.saturating_add(deletes);
        }
    }

    pub fn of(&self, series: Series) -> u64 {
        match series {
            Series::Highest => self.highest,
            Series::VeryUnderReplicated => self.very_under_replicated,
            Series::UnderReplicated => self.under_replicated,
            Series::BadlyDistributed => self.badly_distributed,
            Series::Missing => self.missing,
            Series::Pending => self.pending,
            Series::Excess => self.excess,
            Series::Corrupt => self.corrupt,
            Series::Copies => self.copies,
            Series::Deletes => self.deletes,
            Series::Refused => self.refused,
        }
    }
}

/// One count, over all rounds.
#[derive(Clone, Copy)]
pub enum Series {
    Highest,
    VeryUnderReplicated,
    UnderReplicated,
    BadlyDistributed,
    Missing,
    Pending,
    Excess,
    Corrupt,
    Copies,
    Deletes,
    Refused,
}

/// All series, in the order of the columns.
pub static ALL_SERIES: [Series; 11] = [
    Series::Highest,
    Series::VeryUnderReplicated,
    Series::UnderReplicated,
    Series::BadlyDistributed,
    Series::Missing,
    Series::Pending,
    Series::Excess,
    Series::Corrupt,
    Series::Copies,
    Series::Deletes,
    Series::Refused,
];

impl Series {
    /// The column's heading.
    pub fn heading(self) -> &'static str {
        match self {
            Series::Highest => "highest",
            Series::VeryUnderReplicated => "very_under_replicated",
            Series::UnderReplicated => "under_replicated",
            Series::BadlyDistributed => "badly_distributed",
            Series::Missing => "missing",
            Series::Pending => "pending",
            Series::Excess => "excess",
            Series::Corrupt => "corrupt",
            Series::Copies => "copies",
            Series::Deletes => "deletes",
            Series::Refused => "refused",
        }
    }

    /// The maximum of the series.
    pub fn greatest(self, rows: &[Counts]) -> u64 {
        let mut greatest = 0u64;
        for row in rows {
            greatest = greatest.max(row.of(self));
        }
        greatest
    }
}
