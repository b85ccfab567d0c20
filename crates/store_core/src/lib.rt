//! The core of the store: what is kept between commands, and the small steps that commands are made of.
//!
//! A [`Core`] has the pages in memory with their order, and a [`Ledger`] of what is owed and of what may be on the device. Each
//! step says in its contract what it makes of the plain state that `engine_model` has its laws about (`specs/Views.antt`), and
//! that the core stands for the same arrays as before, or for which others (`specs/Stands.antt`). What every core keeps, whatever
//! the device, is `IsWhole` of `specs/Whole.antt`.
#![tactic(auto)]

ghost use Rattle.store_core.specs.Props.{IsWhole-prop};
ghost use Rattle.store_core.specs.Whole.{IsWhole};

mod blocking;
mod counting;
mod fetching;
mod laws;
mod ledger;
mod marking;
mod naming;
mod observing;
mod opening;
mod orderly;
mod passing;
mod placing;
mod printing;
mod provided;
mod releasing;
mod room;
mod tables;
mod totals;
mod waves;

pub use blocking::{blocked_alike, known_at_moments};
use flush_engine::Engine;
pub use laws::{image_is_good, images_are_fit, moments_stand, moves_stand, settled, weaker};
pub use ledger::Ledger;
pub use opening::opened;
pub use orderly::{
    but_for_none, data_is_orderly, edges_open, entries_are_orderly, entries_fit, marks_are_orderly,
    quiet_is_orderly, releases_are_orderly, releases_wait, tables_stay_formed,
};
use page_layout::Shape;
pub use passing::Passed;
pub use placing::given_page_is_free;
pub use provided::{
    applied_is_provided, holds_move, name_owes, owed_pages_are_held, queue_is_provided,
    reserved_is_enough, stays_provided, steps_spend,
};
pub use room::NoRoom;
pub use tables::{TableError, tables_are_whole};
pub use totals::{Totals, stat_where_tight, steps_recount, totals_follow};

/// What is kept between commands, but for the policy, the index of prints and the totals.
#[derive(Drop)]
pub struct Core {
    shape: Shape,
    engine: Engine,
    ledger: Ledger,
    ghost whole: { IsWhole shape engine ledger } by { IsWhole-prop shape engine ledger },
}
