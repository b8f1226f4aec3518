// The line that is being read.
ghost use Rattle.std.specs.Prelude.{◌≡◌, ◌++◌, ◌<◌, ◌≤◌, [], List, ℕ, length, vec_len, vec_capacity, OnOk, OnErr, IsOk, IsTrue, ◌↔◌, IfSome, IfNone, take, drop, ◌∷◌, ◌+◌, false, not};
ghost use Rattle.bm_lines.specs.Lines.{IsPart, line_end};
ghost use Rattle.bm_lines.specs.declared.limits.TheConstants.{MAX_LINE};

use crate::limits::MAX_LINE;
use std::alloc::{AllocError, Global};

pub const LINE_END: u8 = b'\n';

/// The bytes of a line so far. Once there are more than `MAX_LINE`, `is_long` is set, and `bytes`
/// is empty.
#[derive(Drop)]
pub struct Line {
    pub bytes: Vec<u8>,
    pub is_long: bool,
    ghost bounded: { length bytes.items ≤ MAX_LINE },
}

impl Line {
    ghost use Rattle.bm_lines.specs.LineBuffer.{Holds, is_begun};

    /// Makes an empty line. Takes no memory.
    pub fn new(alloc: Global) -> Line
        ensures holds { Holds result [] }
        ensures begun { is_begun result ≡ false }
    {
        Line {
            bytes: Vec::new(alloc),
            is_long: false,
        }
    }

    /// Adds bytes that have no line end. It takes memory only for a line that may be read, and only
    /// where the buffer is full.
    pub fn add(&mut self, part: &[u8]) -> Result<(), AllocError>
        ensures holds { OnOk result ((rest : List ℕ) → Holds self.old rest
            → Holds self.new (rest ++ part.now)) }
        ensures not_long { OnErr result (self.old.is_long ≡ false) }
        ensures fits { OnErr result (length self.old.bytes.items + length part.now ≤ MAX_LINE) }
        ensures there { vec_len self.old.bytes + length part.now ≤ vec_capacity self.old.bytes
            → IsOk result }
    {
        if self.is_long || part.len() > MAX_LINE.saturating_sub(self.bytes.len()) {
            self.is_long = true;
            self.bytes.clear();
            return Ok(());
        }
        self.bytes.extend_from_slice(part)
    }

    /// Empties the line for the next one, and keeps its buffer.
    pub fn clear(&mut self)
        ensures holds { Holds self.new [] }
        ensures begun { is_begun self.new ≡ false }
    {
        self.bytes.clear();
        self.is_long = false;
    }

    /// Returns whether the line has no bytes so far.
    pub fn is_empty(&self) -> bool
        ensures holds { (rest : List ℕ) → Holds self.now rest → IsTrue result ↔ (rest ≡ []) }
        ensures begun { result ≡ not (is_begun self.now) }
    {
        !self.is_long && self.bytes.is_empty()
    }
}

/// The index of the first line end.
pub fn line_end(bytes: &[u8]) -> Option<usize>
    ensures none { IfNone result (IsPart bytes.now) }
    ensures part { IfSome result (λ at. IsPart (take at bytes.now)) }
    ensures split { IfSome result
        (λ at. bytes.now ≡ take at bytes.now ++ line_end ∷ drop (at + 1) bytes.now) }
    ensures within { IfSome result (λ at. at < length bytes.now) }
{
    bytes.iter().position(|byte| *byte == LINE_END)
}
