// The lines of the counts, as steps: a count holds until the next round.

use super::paint::{Paint, paint_of};
use crate::counts::{ALL_SERIES, Counts, Series};
use crate::scale::Scale;
use std::alloc::AllocError;

/// Draws a line for each count that is not always 0.
pub fn write_lines(text: &mut String, scale: &Scale, rows: &[Counts]) -> Result<(), AllocError> {
    for series in &ALL_SERIES {
        if series.greatest(rows) > 0 {
            write_line(text, scale, rows, *series)?;
        }
    }
    Ok(())
}

pub fn write_line(
    text: &mut String,
    scale: &Scale,
    rows: &[Counts],
    series: Series,
) -> Result<(), AllocError> {
    let Paint {
        colour,
        width,
        dashes,
    } = paint_of(series);
    write!(
        text,
        "<polyline fill='none' stroke='{colour}' stroke-width='{width}' "
    )?;
    write!(text, "stroke-dasharray='{dashes}' points='")?;
    write_points(text, scale, rows, series)?;
    text.push_str("'/>\n")
}

/// Writes the start and the end of each round as points.
fn write_points(
    text: &mut String,
    scale: &Scale,
    rows: &[Counts],
    series: Series,
) -> Result<(), AllocError> {
    for row in rows {
        let round = u64::from(row.round);
        let from = scale.x_of(round);
        let to = scale.x_of(round + 1);
        let y = scale.y_of(row.of(series));
        write!(text, "{from},{y} {to},{y} ")?;
    }
    Ok(())
}
