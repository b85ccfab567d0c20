//! The labels by which a policy is asked for.

/// The label of [`Hold`](crate::Hold).
pub const HOLD: u32 = 0;

/// The label of [`Eager`](crate::Eager).
pub const EAGER: u32 = 1;

/// The label of [`Delay`](crate::Delay).
pub const DELAY: u32 = 2;

/// The label of [`Batch`](crate::Batch).
pub const BATCH: u32 = 3;

/// The label of [`Adaptive`](crate::Adaptive).
pub const ADAPTIVE: u32 = 4;

/// The least label for a policy of a caller's own.
pub const FIRST_OWN: u32 = 5;
