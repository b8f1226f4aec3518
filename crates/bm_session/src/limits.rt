// The limits of the input.

/// The maximum number of lines of a run.
pub const MAX_LINES: u64 = 1_048_576;

/// The maximum number of bytes of a run.
pub const MAX_BYTES: usize = 1_073_741_824;

/// The maximum number of bytes of a piece, which is one read.
pub const PIECE: usize = 65_536;
