//! Small proved callers of the library, for developers who build on it. The `CALLING.md` of a crate
//! quotes them, or the page that `scripts/clauses CRATE` prints.
//!
//! `bm_base`:
//! - events from lists of your own: `arrival` (`events.rt`)
//! - an answer, printed as the tool does: `replica_lines` (`printed_answers.rt`)
//!
//! `bm_manager`:
//! - a NameNode's loop of events, a round, and the commands of each DataNode: `turn`, `for_node`
//!   (`name_node.rt`)
//! - "what if": which blocks are missing if a node dies: `missing_if_dead` (`what_if.rt`)
//! - going on when out of memory: `apply_or_free` (`memory.rt`)
//!
//! `bm_view`:
//! - a reader that learns of a published version: `publish_and_locate` (`informed_reader.rt`)
//! - changes, with a reader in a thread of its own: `apply_with_reader` (`concurrent_reader.rt`)
//!
//! `bm_lines`:
//! - the tool's lines, read and written: `tidy_line` (`lines.rt`)
//!
//! Inner crates:
//! - `bm_crew`, a count of the pieces of work of a call: `apply_counted` (`counting_gate.rt`)
//! - `bm_topo`, known storages that do not drain: `find_serving` (`storages.rt`)
//! - `bm_place`, the source and the target of a copy: `first_copy` (`copy_choice.rt`)
//! - `bm_round`, the commands of a round: `commands_of_parts` (`commands.rt`)
//! - `bm_arena`, a replica put into an arena: `put_replica` (`replicas.rt`)
//! - `bm_report`, a full report, or none of it: `take_report` (`full_report.rt`)
//! - `bm_queues`, a set of slots, each once: `note_slots`, `in_order` (`slots.rt`)
//! - `bm_shard`, an event on the cluster and on one shard, or on neither: `take_event`
//!   (`one_shard.rt`)
#![tactic(auto)]

mod commands;
mod concurrent_reader;
mod copy_choice;
mod counting_gate;
mod events;
mod full_report;
mod informed_reader;
mod lines;
mod memory;
mod name_node;
mod one_shard;
mod printed_answers;
mod replicas;
mod slots;
mod storages;
mod what_if;

pub use commands::commands_of_parts;
pub use concurrent_reader::{Seen, SideBySide, apply_with_reader};
pub use copy_choice::first_copy;
pub use counting_gate::{Pieces, apply_counted};
pub use events::arrival;
pub use full_report::take_report;
pub use informed_reader::publish_and_locate;
pub use lines::tidy_line;
pub use memory::apply_or_free;
pub use name_node::{for_node, turn};
pub use one_shard::take_event;
pub use printed_answers::replica_lines;
pub use replicas::put_replica;
pub use slots::{in_order, note_slots};
pub use storages::find_serving;
pub use what_if::{WhatIf, missing_if_dead, replay};
