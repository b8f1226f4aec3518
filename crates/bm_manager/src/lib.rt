//! The block manager of an HDFS NameNode, as a library.
//!
//! A [`Manager`] knows on which storages the replicas of each block are. It takes the events that
//! DataNodes and the namespace report, answers queries, and in each round commands DataNodes to
//! copy and delete replicas. Each answer, refusal and command is that of the definitions in
//! `bm_base/specs/Machine/`. A refused call changes nothing.
//!
//! ```text
//! let mut manager = Manager::new(alloc, Config::standard())?;
//! let storages = &[StorageId(11)];
//! manager.apply_alone(&Event::register(alloc, NodeId(1), Rack(1), storages)?)?;
//! manager.apply_alone(&Event::AddBlock { id, stamp, repl: 2 })?;
//! manager.apply_alone(&Event::Received { storage: StorageId(11), id, stamp })?;
//! let places = manager.places(id)?;
//! let commands = manager.round_alone()?;
//! ```
//!
//! **There is no safe mode.** A replica that is reported before its block is added is stray, and
//! the next round orders its delete. Add all blocks before the first report, and start rounds
//! after it.
//!
//! There is no clock either: the caller reports deaths, and rounds are the only time.
//!
//! - [`Manager::apply`] takes an event, [`Manager::round`] a round. `places`, `level`, `replicas`,
//!   `corrupt`, `excess`, `missing`, `blocks_on` and `retired` are queries. [`Manager::answer`]
//!   takes any of these as a value.
//! - `apply`, `round` and `answer` process the shards by a crew of threads. `apply_alone`,
//!   `round_alone` and `answer_alone` process them on the calling thread. No answer depends on
//!   that.
//! - [`Manager::new`] allows 256 nodes and 4,096 storages; [`Manager::with_limits`] takes other
//!   limits.
//! - [`Manager::publish`] publishes a version of the state to the readers of `bm_view`, which wait
//!   for no one.
//! - [`answers_alike`] makes the same calls on two managers with different numbers of shards and
//!   workers; its contract guarantees that the answers are alike.
//!
//! `CALLING.md` has a whole program, a proved caller and the contracts. `docs/GUARANTEES.md` lists
//! what is guaranteed, what that assumes, and what is not covered.
#![tactic(auto)]

mod calls;
mod manager;
mod publication;
mod queries;
mod round;
mod same_answers;

pub use manager::Manager;
pub use same_answers::{answers_alike, answers_alike_alone};
