// The repair as a picture.
ghost use Rattle.std.specs.Prelude.{◌≡◌, map, IfOk};
ghost use Rattle.cluster_what_if.specs.Picture.{counts_of_row};

use crate::findings::Mended;
use cluster_repair::rows::Row;
use cluster_simulation::counts::Counts;
use cluster_simulation::svg::picture_text;
use std::alloc::{AllocError, Global};

/// The picture of the rounds.
pub fn picture_of(alloc: Global, mended: &Mended) -> Result<String, AllocError> {
    let interval = mended.pace.interval;
    let bandwidth = mended.pace.bandwidth;
    let below = format!(in alloc;
        "a round at most every {interval} s, {bandwidth} bytes a second"
    )?;
    let counts = counts_of(alloc, mended.repair.rows.rows.as_slice())?;
    let heading = "What is lost is copied again";
    picture_text(alloc, heading, below.as_str(), None, counts.as_slice())
}

/// The points of the picture: one for each row.
fn counts_of(alloc: Global, rows: &[Row]) -> Result<Vec<Counts>, AllocError>
    ensures { IfOk result (λ v. v.items ≡ map counts_of_row rows.now) }
{
    let mut counts = Vec::new(alloc);
    for row in rows {
        counts.push(counts_of_row(row))?;
    }
    Ok(counts)
}

fn counts_of_row(row: &Row) -> Counts
    ensures { result ≡ counts_of_row row.now }
{
    Counts {
        round: row.round,
        highest: row.levels.highest as u64,
        very_under_replicated: row.levels.very_under_replicated as u64,
        under_replicated: row.levels.under_replicated as u64,
        badly_distributed: row.levels.badly_distributed as u64,
        missing: row.levels.missing as u64,
        pending: row.on_way as u64,
        excess: 0,
        corrupt: 0,
        copies: row.commanded as u64,
        deletes: 0,
        refused: 0,
    }
}
