// Facts, tables, cells and bars of a page.
use crate::files_at_risk::FileRow;
use crate::text::first_of;
use crate::text_parts::{path_at, thousandths, write_share};
use bm_base::{BlockId, NodeId, Rack};
use cluster_names::{Files, Names};
use std::alloc::AllocError;

/// A text with the five special characters of HTML escaped.
pub fn write_escaped(text: &mut String, plain: &str) -> Result<(), AllocError> {
    for letter in plain.chars() {
        match letter {
            '&' => text.push_str("&amp;")?,
            '<' => text.push_str("&lt;")?,
            '>' => text.push_str("&gt;")?,
            '"' => text.push_str("&quot;")?,
            '\'' => text.push_str("&#39;")?,
            _ => text.push(letter)?,
        }
    }
    Ok(())
}

/// A number within a list of facts.
pub fn write_fact(text: &mut String, what: &str, count: u128) -> Result<(), AllocError> {
    write!(text, "<div><dt>{what}</dt><dd>{count}</dd></div>\n")
}

/// Begins a table with its title. `heads` are the cells of its heading.
pub fn begin_table(text: &mut String, title: &str, heads: &str) -> Result<(), AllocError> {
    write!(
        text,
        "<h2>{title}</h2>\n<div class=\"table\"><table>\n<thead><tr>{heads}</tr></thead>\n<tbody>\n"
    )
}

pub fn end_table(text: &mut String) -> Result<(), AllocError> {
    text.push_str("</tbody></table></div>\n")
}

pub fn write_cell(text: &mut String, word: &str) -> Result<(), AllocError> {
    write!(text, "<td>{word}</td>")
}

pub fn write_number_cell(text: &mut String, number: u128) -> Result<(), AllocError> {
    write!(text, "<td class=\"n\">{number}</td>")
}

/// The binary units above the byte, each 1,024 of the one before.
static UNITS: [&str; 8] = ["KiB", "MiB", "GiB", "TiB", "PiB", "EiB", "ZiB", "YiB"];

/// Bytes in the greatest unit that gives at least 1, with one decimal, rounded down.
pub fn write_bytes(text: &mut String, bytes: u128) -> Result<(), AllocError> {
    let mut below = bytes;
    for unit in &UNITS {
        if below < 1024 * 1024 {
            return write_in_unit(text, below, *unit);
        }
        below /= 1024;
    }
    write!(text, "{bytes} B")
}

/// Writes an amount in a unit, given in the next smaller unit, or in bytes if it is below 1 KiB.
fn write_in_unit(text: &mut String, below: u128, unit: &str) -> Result<(), AllocError> {
    if below < 1024 && unit == "KiB" {
        return write!(text, "{below} B");
    }
    let whole = below / 1024;
    let tenth = below % 1024 * 10 / 1024;
    write!(text, "{whole}.{tenth} {unit}")
}

/// The name of a rack, or its number if it has none.
pub fn write_rack(text: &mut String, names: &Names, rack: Rack) -> Result<(), AllocError> {
    match names.rack(rack) {
        Some(name) => write_escaped(text, name),
        None => {
            let number = rack.0;
            write!(text, "{number}")
        }
    }
}

/// The name of a node, or its number if it has none.
pub fn write_host(text: &mut String, names: &Names, node: NodeId) -> Result<(), AllocError> {
    match names.host(node) {
        Some(name) => write_escaped(text, name),
        None => {
            let number = node.0;
            write!(text, "{number}")
        }
    }
}

/// A row with a count, its bytes, its part of the total in per cent, and that as a bar.
pub fn write_amount_row(
    text: &mut String,
    what: &str,
    count: usize,
    bytes: u128,
    total: u128,
    is_bad: bool,
) -> Result<(), AllocError> {
    write!(
        text,
        "<tr><td>{what}</td><td class=\"n\">{count}</td><td class=\"n\">"
    )?;
    write_bytes(text, bytes)?;
    text.push_str("</td>")?;
    write_share_cells(text, count as u128, total, is_bad)?;
    text.push_str("</tr>\n")
}

/// A part of a total in per cent, and as a bar.
pub fn write_share_cells(
    text: &mut String,
    part: u128,
    total: u128,
    is_bad: bool,
) -> Result<(), AllocError> {
    text.push_str("<td class=\"n\">")?;
    write_share(text, part, total)?;
    text.push_str("</td>")?;
    write_bar_cell(text, thousandths(part, total), is_bad)
}

/// A cell with a bar; its length is in thousandths of its width.
pub fn write_bar_cell(
    text: &mut String,
    thousandths: u128,
    is_bad: bool,
) -> Result<(), AllocError> {
    text.push_str("<td class=\"bar\">")?;
    write_bar(text, thousandths, is_bad)?;
    text.push_str("</td>")
}

/// A bar, filled to a number of thousandths.
fn write_bar(text: &mut String, thousandths: u128, is_bad: bool) -> Result<(), AllocError> {
    let class = if is_bad { "bad" } else { "part" };
    write!(
        text,
        "<svg viewBox=\"0 0 1000 10\" preserveAspectRatio=\"none\" aria-hidden=\"true\">\
         <rect class=\"all\" width=\"1000\" height=\"10\"/>\
         <rect class=\"{class}\" width=\"{thousandths}\" height=\"10\"/></svg>"
    )
}

/// A table of files, with at most `most` of them.
pub fn write_file_table(
    text: &mut String,
    title: &str,
    files: &Files,
    most: usize,
    rows: &[FileRow],
) -> Result<(), AllocError> {
    begin_table(text, title, "<th>file</th><th class=\"n\">blocks</th>")?;
    for row in first_of(rows, most) {
        text.push_str("<tr><td class=\"path\">")?;
        write_escaped(text, path_at(files, row.file))?;
        text.push_str("</td>")?;
        write_number_cell(text, row.blocks as u128)?;
        text.push_str("</tr>\n")?;
    }
    end_table(text)?;
    write_rest(text, rows.len(), most)
}

/// A note if a list is empty, or is not shown whole.
pub fn write_rest(text: &mut String, count: usize, most: usize) -> Result<(), AllocError> {
    if count == 0 {
        return text.push_str("<p class=\"none\">none</p>\n");
    }
    if count > most {
        return write!(text, "<p class=\"none\">the first {most} of {count}</p>\n");
    }
    Ok(())
}

/// The file of a block and the index of the block there, as a cell.
pub fn write_place(text: &mut String, files: &Files, block: BlockId) -> Result<(), AllocError> {
    text.push_str("<td class=\"path\">")?;
    if let Some((path, index)) = files.path_of(block) {
        write_escaped(text, path)?;
        write!(text, ", block {index}")?;
    }
    text.push_str("</td>")
}
