// The rows of rounds that are shown, if there are many.
ghost use Rattle.std.specs.Prelude.{◌≡◌, ◌<◌, IfOk};
ghost use Rattle.cluster_what_if.specs.ShownRows.{is_shown, shown_rows, step_for};

use cluster_repair::rows::Row;
use std::alloc::{AllocError, Global};

/// At most this number of rows is shown before the last.
const MOST_ROWS: usize = 40;

/// The first row and every second, fourth or eighth after it, and the last.
pub fn shown_rows(alloc: Global, rows: &[Row]) -> Result<Vec<Row>, AllocError>
    ensures { IfOk result (λ v. v.items ≡ shown_rows rows.now) }
{
    let step = step_for(rows.len());
    let mut shown = Vec::new(alloc);
    for (at, row) in rows.iter().enumerate() {
        if is_shown(step, rows.len(), at) {
            shown.push(*row)?;
        }
    }
    Ok(shown)
}

/// Whether the row at this index is shown: it is the last, or its index is a multiple of `step`.
fn is_shown(step: usize, rows: usize, at: usize) -> bool
    requires { 0 < step }
    ensures { result ≡ is_shown step rows at }
{
    at % step == 0 || at == rows.saturating_sub(1)
}

/// The least power of two by which at most `MOST_ROWS` rows come before the last; at most 8.
fn step_for(rows: usize) -> usize
    ensures step { result ≡ step_for rows }
    ensures positive { 0 < result }
{
    let others = rows.saturating_sub(1);
    if others <= MOST_ROWS {
        1
    } else if others <= 2 * MOST_ROWS {
        2
    } else if others <= 4 * MOST_ROWS {
        4
    } else {
        8
    }
}
