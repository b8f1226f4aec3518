// How long a line may be.

/// The bytes of the longest line that is read, without its line end.
pub const MAX_LINE: usize = 4_194_304;
