// A chart of the bytes on the nodes: a column for each node, in the order of the table.
use crate::page_parts::{write_bytes, write_host};
use crate::text_parts::{bytes_on, remaining_on, thousandths};
use cluster_names::Names;
use cluster_report::nodes::NodeRow;
use std::alloc::AllocError;

/// The width of a column, and the gap after it, in units of the drawing.
const STEP: usize = 10;

/// The least width of a drawing, in columns.
const FEWEST_COLUMNS: usize = 24;

/// The height of the drawing, and of the column of the greatest node.
const HEIGHT: u128 = 1000;

pub fn write_chart(text: &mut String, names: &Names, nodes: &[NodeRow]) -> Result<(), AllocError> {
    let most = greatest_of(nodes);
    let width = nodes.len().max(FEWEST_COLUMNS).saturating_mul(STEP);
    text.push_str("<p><i></i> held and <i class=\"all\"></i> free bytes of each node, as above; ")?;
    text.push_str("the highest column is ")?;
    write_bytes(text, most)?;
    write!(
        text,
        "</p>\n<svg class=\"chart\" viewBox=\"0 0 {width} {HEIGHT}\" preserveAspectRatio=\"none\" \
         role=\"img\" aria-label=\"held and free bytes of each node\">\n"
    )?;
    for (index, row) in nodes.iter().enumerate() {
        write_column(text, names, index.saturating_mul(STEP), most, row)?;
    }
    text.push_str("</svg>\n")
}

/// The greatest number of bytes, held and free, of a node.
fn greatest_of(nodes: &[NodeRow]) -> u128 {
    let mut most = 0u128;
    for row in nodes {
        most = most.max(size_of(row));
    }
    most
}

fn size_of(row: &NodeRow) -> u128 {
    let storages = row.storages.as_slice();
    bytes_on(storages).saturating_add(remaining_on(storages))
}

/// The column of a node: its free bytes above its held ones, with a tooltip.
fn write_column(
    text: &mut String,
    names: &Names,
    left: usize,
    most: u128,
    row: &NodeRow,
) -> Result<(), AllocError> {
    let bytes = bytes_on(row.storages.as_slice());
    text.push_str("<g><title>")?;
    write_host(text, names, row.node)?;
    text.push_str(": ")?;
    write_bytes(text, bytes)?;
    text.push_str(" held, ")?;
    write_bytes(text, remaining_on(row.storages.as_slice()))?;
    text.push_str(" free</title>")?;
    write_bar(text, "all", left, thousandths(size_of(row), most))?;
    write_bar(text, "part", left, thousandths(bytes, most))?;
    text.push_str("</g>\n")
}

/// A bar from the base line up.
fn write_bar(text: &mut String, class: &str, left: usize, height: u128) -> Result<(), AllocError> {
    let top = HEIGHT.saturating_sub(height);
    write!(
        text,
        "<rect class=\"{class}\" x=\"{left}\" y=\"{top}\" width=\"8\" height=\"{height}\"/>"
    )
}
