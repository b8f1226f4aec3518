//! Versions of a table of places, for readers that never wait for the publisher.
//!
//! `open_view` makes one [`Publisher`] and up to 16 [`Locator`]s. The publisher publishes
//! [`Table`]s, one after another. A locator answers where a block is from the current table; it
//! takes no memory and waits for no one, on whichever thread it runs. Each publish returns a
//! [`Receipt`]: a locator that has learnt it answers from that table or a later one.
//!
//! **One list.** Contracts speak of the list of all versions published since `open_view`, the
//! opening version first. A publisher, a receipt and a locator each hold a prefix of it. These
//! lists exist in proofs alone: at run time there are two copies of the current table
//! (`left_right`'s), and a receipt is two numbers.
//!
//! **How a proof knows that it is one list.** Two rules, and a token that has no bytes:
//! - `journal.rt`: before a version is published it is entered into a journal as proposed, and
//!   afterwards as settled, or as withdrawn. At run time the journal is two words that no one
//!   reads; its entries exist in proofs. An `Evidence` is a token for a prefix of the journal. Of
//!   any two tokens of one journal one is a prefix of the other (`logbook`).
//! - `rule.rt`: the current table carries its `Evidence`, and what a slot has seen once stays a
//!   prefix of it (`left_right`).
#![tactic(auto)]

mod count;
mod journal;
mod learnt_lists;
mod locator;
mod opened_view;
mod publisher;
mod receipt;
mod rule;
mod shown_value;
mod table;

pub use locator::{Located, Locator};
pub use opened_view::open_view;
pub use publisher::Publisher;
pub use receipt::Receipt;
pub use table::Table;
