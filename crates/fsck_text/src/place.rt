// The place of a replica.
ghost use Rattle.std.specs.Prelude.{◌≡◌};
ghost use Rattle.fsck_text.specs.Places.{is_reserved, has_reserved, is_plain, is_rack, is_name, is_address, is_type, node_place, stored_place, place_of};

use crate::cuts::{after_first, before_last, cut_at, last_cut_at, parse_number};
use crate::reason::Piece;

/// A node, by its host and port, with its rack if the text has it; and one of its storages, by
/// name.
#[derive(Drop)]
pub struct Place<'a> {
    pub rack: Option<Piece<'a>>,
    pub address: Piece<'a>,
    pub storage: Piece<'a>,
}

/// Parses a place: a node by its path, with one storage of the node's name, or a node and its
/// storage in brackets.
pub fn parse_place(text: &str) -> Option<Place<'_>>
    ensures { result ≡ place_of text.now }
{
    match cut_at(text, '[') {
        Some((name, rest)) if name == "DatanodeInfoWithStorage" => stored_place(rest),
        Some(_) => None,
        None => node_place(text),
    }
}

/// Whether a byte is a delimiter of the list, so that no name has it.
fn is_reserved(byte: u8) -> bool
    ensures { result ≡ is_reserved byte }
{
    matches!(byte, b'(' | b')' | b',' | b':' | b'[' | b']' | b' ')
}

fn is_plain(text: &str) -> bool
    ensures { result ≡ is_plain text.now }
{
    !text.is_empty() && !has_reserved(text.as_bytes())
}

fn has_reserved(text: &[u8]) -> bool
    ensures { result ≡ has_reserved text.now }
{
    text.iter().any(|byte| is_reserved(*byte))
}

/// Whether a text is the path of a rack.
pub fn is_rack(text: &str) -> bool
    ensures { result ≡ is_rack text.now }
{
    is_plain(text) && after_first(text, '/').is_some()
}

/// Whether a text is the name of a host or of a storage.
fn is_name(text: &str) -> bool
    ensures { result ≡ is_name text.now }
{
    is_plain(text) && cut_at(text, '/').is_none()
}

/// Whether a text is a host and a port.
pub fn is_address(text: &str) -> bool
    ensures { result ≡ is_address text.now }
{
    match cut_at(text, ':') {
        Some((host, port)) => is_name(host) && parse_number(port).is_some(),
        None => false,
    }
}

/// Whether a text is a type of storage that Hadoop has.
fn is_type(text: &str) -> bool
    ensures { result ≡ is_type text.now }
{
    matches!(
        text,
        "DISK" | "SSD" | "ARCHIVE" | "RAM_DISK" | "PROVIDED" | "NVDIMM"
    )
}

/// A node from its path: its rack, if it has one, a slash, its host and port.
fn node_place(path: &str) -> Option<Place<'_>>
    ensures { result ≡ node_place path.now }
{
    match last_cut_at(path, '/') {
        Some((rack, address)) if is_rack(rack) && is_address(address) => Some(Place {
            rack: Some(Piece::new(rack)),
            address: Piece::new(address),
            storage: Piece::new(address),
        }),
        None if is_address(path) => Some(Place {
            rack: None,
            address: Piece::new(path),
            storage: Piece::new(path),
        }),
        _ => None,
    }
}

/// A node and its storage: host and port, the storage's name and its type, and the closing bracket.
fn stored_place(text: &str) -> Option<Place<'_>>
    ensures { result ≡ stored_place text.now }
{
    let (address, rest) = cut_at(before_last(text, ']')?, ',')?;
    let (storage, kind) = cut_at(rest, ',')?;
    if !(is_address(address) && is_name(storage) && is_type(kind)) {
        return None;
    }
    Some(Place {
        rack: None,
        address: Piece::new(address),
        storage: Piece::new(storage),
    })
}
