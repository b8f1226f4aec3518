// The counts as a picture: a line for each count that is not always 0, with axes and a legend.

mod axes;
mod legend;
mod lines;
mod paint;

use crate::counts::Counts;
use crate::options::Options;
use crate::plan::Plan;
use crate::scale::Scale;
use crate::shape::Shape;
use cluster_repair::repair::Pace;
use std::alloc::{AllocError, Global};

pub(crate) fn svg_text(
    alloc: Global,
    options: &Options,
    plan: &Plan,
    rows: &[Counts],
) -> Result<String, AllocError> {
    let heading = format!(in alloc; "{plan}")?;
    let mut below = String::new(alloc);
    write_shape(&mut below, &options.shape)?;
    write_blocks(&mut below, options.blocks, options.replication)?;
    write_course(&mut below, options.pace, options.seed)?;
    let marked = if plan.is_empty() {
        None
    } else {
        Some(plan.round)
    };
    picture_text(alloc, heading.as_str(), below.as_str(), marked, rows)
}

/// Makes the picture of these counts, with a heading, a line below it, and a mark at the round of
/// the incidents, if any.
pub fn picture_text(
    alloc: Global,
    heading: &str,
    below: &str,
    marked: Option<u32>,
    rows: &[Counts],
) -> Result<String, AllocError> {
    let mut text = String::new(alloc);
    text.push_str("<svg xmlns='http://www.w3.org/2000/svg' width='900' height='420' ")?;
    text.push_str("viewBox='0 0 900 420' font-family='sans-serif' font-size='12'>\n")?;
    text.push_str("<rect width='900' height='420' fill='#ffffff'/>\n")?;
    write_title(&mut text, heading, below)?;
    let scale = Scale::new(rows);
    axes::write_axes(&mut text, &scale)?;
    if let Some(round) = marked {
        axes::write_marked_round(&mut text, &scale, round)?;
    }
    lines::write_lines(&mut text, &scale, rows)?;
    legend::write_legend(&mut text, rows)?;
    text.push_str("</svg>\n")?;
    Ok(text)
}

fn write_title(text: &mut String, heading: &str, below: &str) -> Result<(), AllocError> {
    text.push_str("<text x='76' y='28' font-size='18' font-weight='bold'>")?;
    writeln!(text, "{heading}</text>")?;
    text.push_str("<text x='76' y='50' fill='#444444'>")?;
    writeln!(text, "{below}</text>")
}

fn write_shape(text: &mut String, shape: &Shape) -> Result<(), AllocError> {
    let (nodes, racks, storages) = (shape.nodes, shape.racks, shape.storages);
    write!(
        text,
        "nodes {nodes}, racks {racks}, disks a node {storages}, "
    )
}

fn write_blocks(text: &mut String, blocks: u32, replication: u32) -> Result<(), AllocError> {
    write!(
        text,
        "blocks {blocks}, replicas wanted of each {replication}, "
    )
}

fn write_course(text: &mut String, pace: Pace, seed: u64) -> Result<(), AllocError> {
    let megabytes = pace.bandwidth / 1_000_000;
    let interval = pace.interval;
    write!(
        text,
        "{megabytes} MB a second, a round at most every {interval} s, seed {seed}"
    )
}
