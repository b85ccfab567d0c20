// What a call can answer in place of its result.

/// A fault of a device or a port. The object on which the call was made has counted it.
#[derive(Clone, Copy, Debug, PartialEq, Eq, Drop)]
pub struct Failed;

/// No memory was found. What the call was made on is as it was before.
#[derive(Clone, Copy, Debug, PartialEq, Eq, Drop)]
pub struct NoMemory;

/// A malformed entry of a table page.
#[derive(Clone, Copy, Debug, PartialEq, Eq, Drop)]
pub struct Damage {
    /// The page of the device, counted from 0.
    pub page: u32,
    /// The entry in that page, counted from 0.
    pub entry: u32,
}
