//! Which data pages are free: those that may be given new content with no harm, wherever a crash comes.
//!
//! A data page whose count is 0 in the cache may still have one above 0 on the device, and then a name or
//! a print may stand there too. So a pool is told what happens to counts and to count pages, and hands
//! out a page only where every count of it is 0. The laws of `engine_model` say why that is enough
//! (docs/RULES.md).
#![tactic(auto)]

mod bits;
mod groups;
mod laws;
mod marks;
mod numbers;
mod pool;

pub use laws::calls_tell;
pub use page_device::NoMemory;
pub use pool::Pool;
