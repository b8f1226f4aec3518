// The key by which the lists of a round are sorted.

/// Two numbers: the first decides, then the second.
pub type Key = (u64, u64);
