// Iterates over an answer and prints it with the tool's words.
ghost use Rattle.std.specs.Prelude.{◌≡◌, IfOk, string_bytes, flat_map};
ghost use Rattle.callers.specs.PrintedAnswers.{replica_line};

use bm_base::{Items, Replica};
use std::alloc::{AllocError, Global};

/// A line for each replica: its block, its storage, and its tag.
pub fn replica_lines(alloc: Global, replicas: &Items<Replica>) -> Result<String, AllocError>
    ensures { IfOk result (λ text. string_bytes text ≡ flat_map replica_line replicas.now) }
{
    let mut text = String::new(alloc);
    for replica in replicas {
        let block = replica.block.0;
        let storage = replica.storage.0;
        let tag = replica.tag;
        write!(text, "{block} on {storage} is {tag}\n")?;
    }
    Ok(text)
}
