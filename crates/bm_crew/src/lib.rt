//! One piece of work for each shard, by a crew of workers that share a bag of pieces.
//!
//! [`Crew::ready`] takes all memory. [`Ready::run`] then processes every item and refuses nothing:
//! one result for each item, in the order of items, whatever the threads do and however few can be
//! started. [`Ready::run_alone`] returns the same by the calling thread alone, for callers without
//! a runtime.
//!
//! With one worker or one item, `run` processes the items in turn, and uses no bag.
//!
//! Pieces are in a [`Bag`], and a free worker takes the next one, so no worker waits while there is
//! a piece. It goes on until it finds the bag empty. Each worker has a [`BagPass`], the right to
//! take from the bag. For proofs, it notes the pieces put and taken through it, and how often it
//! found the bag empty. The rule of a bag (`specs/Rule.antt`): the pieces in it and those taken
//! through all passes are the pieces put, in some order. Each call keeps the rule. So when every
//! pass was joined into the caller's and the bag is empty, the caller's pass has taken exactly the
//! pieces put.
//!
//! A run is an induction over the workers: one is started in parallel with a run of the others, and
//! then its pass is joined. With no worker left the calling thread takes alone. So one proof serves
//! every number of workers, and a worker that could not be started.
#![tactic(auto)]

mod bag;
mod collector;
mod crew;
mod gate;
mod helper;
mod pass_view;
mod rule;
mod slots;
mod team;
mod workers;

pub use bag::{Bag, BagPass};
pub use crew::{Crew, Ready};
pub use gate::{Gate, NoGate};
