// The counts as a table (CSV): a heading, and a line for each round.
use crate::counts::{ALL_SERIES, Counts};
use std::alloc::{AllocError, Global};

pub fn csv_text(alloc: Global, rows: &[Counts]) -> Result<String, AllocError> {
    let mut text = String::from_str(alloc, "round")?;
    write_headings(&mut text)?;
    write_rows(&mut text, rows)?;
    Ok(text)
}

fn write_headings(text: &mut String) -> Result<(), AllocError> {
    for series in &ALL_SERIES {
        text.push_str(",")?;
        text.push_str(series.heading())?;
    }
    text.push_str("\n")
}

fn write_rows(text: &mut String, rows: &[Counts]) -> Result<(), AllocError> {
    for row in rows {
        write_row(text, row)?;
    }
    Ok(())
}

fn write_row(text: &mut String, row: &Counts) -> Result<(), AllocError> {
    let round = row.round;
    write!(text, "{round}")?;
    for series in &ALL_SERIES {
        let count = row.of(*series);
        write!(text, ",{count}")?;
    }
    text.push_str("\n")
}
