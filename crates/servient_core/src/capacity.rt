//! The capacities of a servient.

/// The most observers that there may be.
pub const MOST_WATCHERS: u32 = 1024;
