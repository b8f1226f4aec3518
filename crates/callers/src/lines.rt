// Reads a line of the tool and writes it again in canonical form.
ghost use Rattle.std.specs.Prelude.{◌≡◌, IfOk, is_some, string_bytes};
ghost use Rattle.bm_base.specs.Words.{IfFound};
ghost use Rattle.bm_lines.specs.Parser.CallOf.{call_of};

use bm_lines::{call_of, line_of};
use std::alloc::{AllocError, Global};

/// The line in canonical form, without spaces. `None` if the line asks for no call.
pub fn tidy_line(alloc: Global, line: &[u8]) -> Result<Option<String>, AllocError>
    ensures some { IfOk result (λ o. is_some o ≡ is_some (call_of line.now)) }
    ensures same { IfFound result (λ s. call_of (string_bytes s) ≡ call_of line.now) }
{
    match call_of(alloc, line)? {
        Some(call) => {
            let written = line_of(alloc, &call)?;
            Ok(Some(written))
        }
        None => Ok(None),
    }
}
