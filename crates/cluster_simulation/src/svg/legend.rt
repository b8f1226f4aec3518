// The legend.

use super::paint::{Paint, label_of, paint_of};
use crate::counts::{ALL_SERIES, Counts, Series};
use std::alloc::AllocError;

/// The height of the first entry, and the distance between two entries.
const FIRST: u64 = 96;

const APART: u64 = 24;

/// Writes an entry for each count with its maximum; grey and without a line if that is 0.
pub fn write_legend(text: &mut String, rows: &[Counts]) -> Result<(), AllocError> {
    let mut y = FIRST;
    for series in &ALL_SERIES {
        write_entry(text, y, *series, series.greatest(rows))?;
        y = y.saturating_add(APART);
    }
    Ok(())
}

fn write_entry(text: &mut String, y: u64, series: Series, greatest: u64) -> Result<(), AllocError> {
    let label = label_of(series);
    let foot = y.saturating_add(4);
    if greatest == 0 {
        return writeln!(
            text,
            "<text x='686' y='{foot}' fill='#666666'>{label}: none</text>"
        );
    }
    let Paint {
        colour,
        width,
        dashes,
    } = paint_of(series);
    write!(
        text,
        "<line x1='648' y1='{y}' x2='678' y2='{y}' stroke='{colour}' "
    )?;
    writeln!(text, "stroke-width='{width}' stroke-dasharray='{dashes}'/>")?;
    writeln!(
        text,
        "<text x='686' y='{foot}'>{label}: max {greatest}</text>"
    )
}
