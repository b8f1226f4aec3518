// The text of an answer.
ghost use Rattle.std.specs.Prelude.{◌≡◌, ◌++◌, IfOk, OnOk, string_bytes};
ghost use Rattle.bm_lines.specs.Print.{answer_text, head_text, items_text, done_text, refused_text, round_text, yes_no_item};

use crate::print_items::{
    write_blocks, write_level, write_nodes, write_replica_ids, write_replicas, write_storages,
};
use bm_base::{Answer, Call, Commands, Done, Refusal};
use std::alloc::{AllocError, Global};

/// The item of an answer that is yes or no.
fn yes_no_item(is_so: bool) -> &'static str
    ensures { result.now ≡ yes_no_item is_so }
{
    if is_so { "; yes" } else { "; no" }
}

/// The line of an answer to a call, without its line end.
pub fn answer_line(alloc: Global, call: &Call, answer: &Answer) -> Result<String, AllocError>
    ensures { IfOk result (λ s. string_bytes s ≡ answer_text call.now answer.now) }
{
    match answer {
        Answer::Done(done) => done_line(alloc, done),
        Answer::Refused(refusal) => refused_line(alloc, *refusal),
        Answer::Commanded(commands) => round_line(alloc, commands),
        Answer::Number(_) => Ok(String::new(alloc)),
        Answer::Replicas(_)
        | Answer::ReplicaIds(_)
        | Answer::Blocks(_)
        | Answer::Storages(_)
        | Answer::LevelIs(_)
        | Answer::IsRetired(_) => query_line(alloc, call, answer),
    }
}

/// The line of an answer to a query.
fn query_line(alloc: Global, call: &Call, answer: &Answer) -> Result<String, AllocError>
    ensures { IfOk result (λ s. string_bytes s ≡ head_text call.now ++ items_text answer.now) }
{
    let mut line = head_of(alloc, call)?;
    write_items(&mut line, answer)?;
    Ok(line)
}

/// The items of an answer to a query.
fn write_items(line: &mut String, answer: &Answer) -> Result<(), AllocError>
    ensures { OnOk result (string_bytes line.new ≡ string_bytes line.old ++ items_text answer.now) }
{
    match answer {
        Answer::Replicas(replicas) => write_replicas(line, replicas.as_slice()),
        Answer::ReplicaIds(ids) => write_replica_ids(line, ids.as_slice()),
        Answer::Blocks(blocks) => write_blocks(line, blocks.as_slice()),
        Answer::Storages(storages) => write_storages(line, storages.as_slice()),
        Answer::LevelIs(level) => write_level(line, *level),
        Answer::IsRetired(is_so) => line.push_str(yes_no_item(*is_so)),
        Answer::Done(_) | Answer::Refused(_) | Answer::Commanded(_) | Answer::Number(_) => Ok(()),
    }
}

fn done_line(alloc: Global, done: &Done) -> Result<String, AllocError>
    ensures { IfOk result (λ s. string_bytes s ≡ done_text done.now) }
{
    let added = done.added;
    let removed = done.removed;
    format!(in alloc; "ok {added} {removed}")
}

fn refused_line(alloc: Global, refusal: Refusal) -> Result<String, AllocError>
    ensures { IfOk result (λ s. string_bytes s ≡ refused_text refusal) }
{
    let number = refusal.number();
    let name = refusal.name();
    format!(in alloc; "refused {number} {name}")
}

fn round_line(alloc: Global, commands: &Commands) -> Result<String, AllocError>
    ensures { IfOk result (λ s. string_bytes s ≡ round_text commands.now) }
{
    let round = commands.round;
    let mut line = format!(in alloc; "round {round}")?;
    write_nodes(&mut line, commands.nodes.as_slice())?;
    Ok(line)
}

/// How the answer to a query begins.
fn head_of(alloc: Global, call: &Call) -> Result<String, AllocError>
    ensures { IfOk result (λ s. string_bytes s ≡ head_text call.now) }
{
    match call {
        Call::Replicas => String::from_str(alloc, "replicas"),
        Call::Corrupt => String::from_str(alloc, "corrupt"),
        Call::Excess => String::from_str(alloc, "excess"),
        Call::Missing => String::from_str(alloc, "missing"),
        Call::BlocksOn(storage) => {
            let number = storage.0;
            format!(in alloc; "storage {number}")
        }
        Call::Places(id) => {
            let number = id.0;
            format!(in alloc; "places {number}")
        }
        Call::LevelOf(id) => {
            let number = id.0;
            format!(in alloc; "level {number}")
        }
        Call::Retired(node) => {
            let number = node.0;
            format!(in alloc; "retired {number}")
        }
        Call::Apply(_) | Call::Round | Call::Calls | Call::Rounds => Ok(String::new(alloc)),
    }
}
