//! Parses a line that `hdfs fsck` or `hdfs dfsadmin -report` prints, for Hadoop 2.6 to 3.4.
//!
//! The forms are those of Hadoop's `NamenodeFsck` and `DatanodeInfo`, as remembered: no text of a
//! running cluster was tried. Where versions differ, all are read. No call depends on more than one
//! line.
#![tactic(auto)]

mod block;
mod cuts;
mod escape;
mod feed;
mod heading;
mod line;
mod list;
mod mark;
mod node;
mod path;
mod place;
mod reason;
mod summary;

pub use block::{BlockLine, corrupt_block, is_being_written, is_missing, parse_block};
pub use cuts::{column_of, cut_at, last_cut_at, parse_number, parse_small_number};
pub use escape::escaped;
pub use feed::{goes_on, whole_line};
pub use heading::{Heading, Layout};
pub use line::{Line, parse_line};
pub use list::{ListedReplica, parse_list};
pub use mark::Mark;
pub use node::{NodeLine, parse_node_line};
pub use path::parse_path;
pub use place::Place;
pub use reason::{Fault, Piece, Reason, Wrong};
pub use summary::Count;
