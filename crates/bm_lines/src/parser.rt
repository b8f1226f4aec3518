// Parses a line as a call: a canonical line with a frequent op by its bytes, any other by the value
// that `serde_json` reads.

mod call;
mod canonical;
mod canonical_entries;
mod canonical_lists;
mod canonical_numbers;
mod canonical_remaining;
mod fields;
mod items;
mod lists;
mod op;

pub use call::call_of;
pub use canonical::canonical_call;
