//! Laws of levels and rounds, in the terms of HDFS. They check the definitions of `bm_base`,
//! against which all else is proved: a slip there would be proved through the whole product. A law
//! is over every state, every lawful state or every list of calls. No function here computes
//! anything: its contract is the law.
#![tactic(auto)]

pub mod commands;
pub mod deletes;
pub mod levels;
pub mod live_replicas;
pub mod obedience;
pub mod rounds;
pub mod surplus;
pub mod transfers;
