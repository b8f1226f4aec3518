//! All shards of a block manager, processed by a crew of threads or by the calling thread alone
//! ([`Workers`]). What they hold together changes as the definitions change the whole.
//!
//! An event on a block is made on the block's shard alone, any other on every shard or on none
//! ([`AllShards::change`]); so is a round ([`AllShards::round`]). The lists of all shards are
//! gathered and sorted once.
#![tactic(auto)]

mod abort;
mod all_shards;
mod answers;
mod calling_thread;
mod event_on_all;
mod events;
mod lists;
mod pass_buffers;
mod queries;
mod round;
mod round_choice;
mod round_parts;
mod shard_work;
mod table;
mod thread_crew;
mod workers;

pub use all_shards::AllShards;
pub use calling_thread::CallingThread;
pub use thread_crew::Threaded;
pub use workers::Workers;
