//! Policies: when a changed page is written, and when a barrier is made, while no command asks for it.
//!
//! `MergePolicy` is the interface, and a place for callers to put policies of their own. Five kinds stand here, from `Hold`, which
//! leaves every page to the next flush, to `Eager`, which writes each as soon as its order allows. The longer a page waits, the more
//! changes of it merge into one write. `specs/Kinds.antt` says what the five answer, and `docs/FORMAT.md` says it in prose.
#![tactic(auto)]

mod adaptive;
mod batch;
mod boxes;
mod delay;
mod eager;
mod hold;
pub mod labels;
mod policy;

pub use adaptive::Adaptive;
pub use batch::Batch;
pub use boxes::take_first;
pub use delay::Delay;
pub use eager::Eager;
pub use hold::Hold;
pub use policy::{MergePolicy, Offer};
