// The codes that are not the number of a refusal.

/// Memory was refused, and nothing is changed: the number of [`bm_base::Refusal::Memory`].
pub const MEMORY: u32 = 14;

/// The handle is closed, but must be open.
pub const CLOSED: u32 = 32;

/// The handle is open, but must be closed.
pub const OPEN: u32 = 33;

/// The line is answered, and memory was refused for the text of its answer.
pub const NO_TEXT: u32 = 34;

/// The level of a block that is in no queue.
pub const NO_LEVEL: u64 = 5;
