// A line of `hdfs dfsadmin -report`.
ghost use Rattle.std.specs.Prelude.{◌≡◌};
ghost use Rattle.fsck_text.specs.Nodes.{live_section, section_of, address_line, rack_line, status_line, remaining_line, node_line_of, keyed_line};

use crate::cuts::{after_prefix, before_last, cut_at, parse_number, word_and_rest};
use crate::line::ends;
use crate::place::{is_address, is_rack};
use crate::reason::{Piece, Reason, Wrong};

/// A parsed line of the report on DataNodes.
#[derive(Drop)]
pub enum NodeLine<'a> {
    /// The section of the live nodes begins, with their number.
    Live(u64),
    /// The section of other nodes begins.
    NotLive,
    /// A node begins, by its host and port.
    Node(Piece<'a>),
    Rack(Piece<'a>),
    /// Whether the node is being decommissioned, or has been.
    Drains(bool),
    /// Free bytes.
    Remaining(u64),
    Other,
}

/// Parses a line of the report.
pub fn parse_node_line(line: &str) -> Result<NodeLine<'_>, Wrong<'_>>
    ensures { result ≡ node_line_of line.now }
{
    match cut_at(line, ':') {
        Some((key, value)) => keyed_line(key, value),
        None => Ok(NodeLine::Other),
    }
}

/// Parses a line by its text before the first colon and after it.
fn keyed_line<'a>(key: &'a str, value: &'a str) -> Result<NodeLine<'a>, Wrong<'a>>
    ensures { result ≡ keyed_line key.entry.now value.entry.now }
{
    match key {
        "Name" => address_line(value),
        "Rack" => rack_line(value),
        "Decommission Status " => status_line(value),
        "DFS Remaining" => remaining_line(value),
        _ => parse_section(key),
    }
}

/// A section, if this is its heading: `Live datanodes (N)`, or one of nodes in another state.
fn parse_section(key: &str) -> Result<NodeLine<'_>, Wrong<'_>>
    ensures { result ≡ section_of key.now }
{
    match cut_at(key, '(') {
        Some((name, count)) if name == "Live datanodes " => live_section(count),
        Some((name, _)) if ends(name, " datanodes ") => Ok(NodeLine::NotLive),
        _ => Ok(NodeLine::Other),
    }
}

/// The section of the live nodes, from their number up to a closing parenthesis.
fn live_section(count: &str) -> Result<NodeLine<'_>, Wrong<'_>>
    ensures { result ≡ live_section count.now }
{
    match before_last(count, ')').and_then(parse_number) {
        Some(number) => Ok(NodeLine::Live(number)),
        None => Err(Wrong::new(Reason::NotANode, count)),
    }
}

/// The host and port of a node, before its host name in parentheses.
fn address_line(value: &str) -> Result<NodeLine<'_>, Wrong<'_>>
    ensures { result ≡ address_line value.now }
{
    let (address, _) = word_and_rest(after_prefix(value, " ").unwrap_or(value));
    if is_address(address) {
        Ok(NodeLine::Node(Piece::new(address)))
    } else {
        Err(Wrong::new(Reason::NotANode, value))
    }
}

fn rack_line(value: &str) -> Result<NodeLine<'_>, Wrong<'_>>
    ensures { result ≡ rack_line value.now }
{
    match after_prefix(value, " ") {
        Some(rack) if is_rack(rack) => Ok(NodeLine::Rack(Piece::new(rack))),
        _ => Err(Wrong::new(Reason::NotANode, value)),
    }
}

/// Whether a node of this state drains. Maintenance is read in both spellings.
fn status_line(value: &str) -> Result<NodeLine<'_>, Wrong<'_>>
    ensures { result ≡ status_line value.now }
{
    match value {
        " Decommission in progress" | " Decommissioned" => Ok(NodeLine::Drains(true)),
        " Normal"
        | " Entering maintenance"
        | " Entering Maintenance"
        | " In maintenance"
        | " In Maintenance" => Ok(NodeLine::Drains(false)),
        _ => Err(Wrong::new(Reason::NotANode, value)),
    }
}

fn remaining_line(value: &str) -> Result<NodeLine<'_>, Wrong<'_>>
    ensures { result ≡ remaining_line value.now }
{
    let (number, _) = word_and_rest(after_prefix(value, " ").unwrap_or(value));
    match parse_number(number) {
        Some(bytes) => Ok(NodeLine::Remaining(bytes)),
        None => Err(Wrong::new(Reason::NotANode, value)),
    }
}
