//! Lemmas on states: each call leaves a lawful state lawful, and the deletes of a round leave each
//! block its last good replica.
//!
//! All of it is in `proofs/`, for the contracts of `bm_manager`, `laws_of_events` and
//! `laws_of_rounds`.
#![tactic(auto)]
