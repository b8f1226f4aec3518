// The kind of a text: lines of the tool, or fsck.
ghost use Rattle.std.specs.Prelude.{◌≡◌, [], not, drop, IfSome, OnOk, find};
ghost use Rattle.bm_base.specs.Words.{list_any};
ghost use Rattle.cluster_input.specs.Kinds.{is_blank, is_brace, are_lines, IsHeadOf};

use crate::fault::Fault;
use cluster_report::line_reader::read_fault;
use std::io::BufRead;

/// Reads the lines of a text up to the first one that is not blank. A text without one is refused.
#[tactic(auto, using(crate::proofs::HeadLemmas::none_read))]
pub fn read_head<R: BufRead>(reader: &mut R, head: &mut Vec<u8>) -> Result<(), Fault>
    requires { head.old.items ≡ [] }
    ensures { OnOk result (IfSome (R.remaining reader.old) (λ text.
        IsHeadOf text head.new.items (R.remaining reader.new))) }
{
    for _ in 0..u64::MAX {
        let start = head.len();
        match reader.read_until(b'\n', head) {
            Ok(0) => return Err(Fault::Empty),
            Ok(_) => {}
            Err(error) => return Err(Fault::from(read_fault(&error))),
        }
        if has_word(head.as_slice(), start) {
            return Ok(());
        }
    }
    Err(Fault::Read)
}

/// Whether a byte from index `start` on is not blank.
fn has_word(text: &[u8], start: usize) -> bool
    ensures { result ≡ list_any (λ b. not (is_blank b)) (drop start text.now) }
{
    text.iter().skip(start).any(|byte| !is_blank(*byte))
}

/// Whether these are lines of the tool.
pub fn are_lines(text: &[u8]) -> bool
    ensures { result ≡ are_lines text.now }
{
    is_brace(first_word(text))
}

/// The first byte that is not blank.
fn first_word(text: &[u8]) -> Option<u8>
    ensures { result ≡ find (λ b. not (is_blank b)) text.now }
{
    text.iter().copied().find(|byte| !is_blank(*byte))
}

fn is_brace(first: Option<u8>) -> bool
    ensures { result ≡ is_brace first }
{
    match first {
        Some(byte) => byte == b'{',
        None => false,
    }
}

fn is_blank(byte: u8) -> bool
    ensures { result ≡ is_blank byte }
{
    matches!(byte, b' ' | b'\t' | b'\n' | b'\r')
}
