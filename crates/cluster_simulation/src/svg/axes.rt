// The axes with their numbers.

use crate::scale::{BOTTOM, LEFT, RIGHT, Scale, TOP};
use std::alloc::AllocError;

/// Draws a grey line and a number for each step of the counts, and a number for each step of the
/// rounds.
pub fn write_axes(text: &mut String, scale: &Scale) -> Result<(), AllocError> {
    for number in 0..=scale.count_steps {
        write_count_mark(text, scale, scale.count_step.saturating_mul(number))?;
    }
    write_round_mark(text, scale, 1)?;
    let last = scale.rounds() / scale.round_step.max(1);
    for number in 1..=last {
        let round = scale.round_step.saturating_mul(number);
        if round > 1 {
            write_round_mark(text, scale, round)?;
        }
    }
    writeln!(
        text,
        "<text x='351' y='402' text-anchor='middle'>round</text>"
    )?;
    write!(text, "<text x='14' y='223' text-anchor='middle' ")?;
    writeln!(
        text,
        "transform='rotate(-90 14 223)'>blocks, replicas or commands</text>"
    )
}

fn write_count_mark(text: &mut String, scale: &Scale, count: u64) -> Result<(), AllocError> {
    let y = scale.y_of(count);
    write_grey_line(text, y)?;
    write_count(text, y.saturating_add(4), count)
}

fn write_grey_line(text: &mut String, y: u64) -> Result<(), AllocError> {
    writeln!(
        text,
        "<line x1='{LEFT}' y1='{y}' x2='{RIGHT}' y2='{y}' stroke='#dddddd'/>"
    )
}

fn write_count(text: &mut String, foot: u64, count: u64) -> Result<(), AllocError> {
    writeln!(
        text,
        "<text x='68' y='{foot}' text-anchor='end'>{count}</text>"
    )
}

fn write_round_mark(text: &mut String, scale: &Scale, round: u64) -> Result<(), AllocError> {
    let x = scale.x_of(round);
    writeln!(
        text,
        "<line x1='{x}' y1='{BOTTOM}' x2='{x}' y2='363' stroke='#444444'/>"
    )?;
    writeln!(
        text,
        "<text x='{x}' y='378' text-anchor='middle'>{round}</text>"
    )
}

/// Draws a vertical line at a round.
pub fn write_marked_round(text: &mut String, scale: &Scale, round: u32) -> Result<(), AllocError> {
    let x = scale.x_of(u64::from(round));
    write!(text, "<line x1='{x}' y1='{TOP}' x2='{x}' y2='{BOTTOM}' ")?;
    writeln!(text, "stroke='#666666' stroke-dasharray='4 4'/>")?;
    writeln!(
        text,
        "<text x='{x}' y='80' fill='#444444'>round {round}</text>"
    )
}
