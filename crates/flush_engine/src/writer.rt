// The pages in memory with their order, and the two steps that are made of them: a write and a barrier.
ghost use Rattle.std.specs.Prelude.{◌≡◌, true};
ghost use Rattle.page_device.specs.Meaning.{HasCause};
ghost use Rattle.dep_graph.specs.Lists.{is_ready};
ghost use Rattle.dep_graph.specs.Schedules.{MakeBarrier, WritePage};
ghost use Rattle.flush_engine.specs.View.{Fits, at};
ghost use Rattle.flush_engine.specs.Steps.{StepEnds};

use crate::tallies::{Tally, leave};
use crate::watch::Watch;
use dep_graph::Graph;
use page_cache::Cache;
use page_device::{Device, Failed};
use std::marker::Model;

// All of an engine but its list of offers.
#[derive(Drop)]
pub(crate) struct Writer {
    pub(crate) cache: Cache,
    pub(crate) graph: Graph,
    // The dirty pages of the graph.
    pub(crate) tallies: Vec<Tally>,
}

impl Model for Writer {
    ghost use Rattle.std.specs.Prelude.{vec_capacity};
    ghost use Rattle.flush_engine.specs.View.{EngineView};

    ghost Value = { EngineView };

    ghost view = { λ w. record { cache = w.cache; graph = w.graph; tallies = w.tallies.items; room = vec_capacity w.tallies } };
}

impl Writer {
    // Writes a page that is ready.
    pub(crate) fn write<D: Device, W: Watch>(
        &mut self,
        device: &mut D,
        page: u32,
        watch: &mut W,
    ) -> Result<(), Failed>
        requires ready { is_ready self.old.graph page ≡ true }
        requires fits { Fits self.old (D.seen device.old) }
        ensures step { StepEnds W.told (WritePage page) result (at (D.seen device.old) self.old watch.old) (at (D.seen device.new) self.new watch.new) }
        ensures cause { HasCause result (D.seen device.old) (D.seen device.new) }
    {
        page_cache::absent_is_unmarked();
        watch.tried(page);
        match self.cache.write_out(device, page) {
            Ok(()) => {}
            Err(failed) => return Err(failed),
        }
        leave(&mut self.tallies, page);
        self.graph.wrote(page);
        watch.written(page);
        Ok(())
    }

    // Makes a barrier.
    pub(crate) fn barrier<D: Device, W: Watch>(
        &mut self,
        device: &mut D,
        watch: &mut W,
    ) -> Result<(), Failed>
        ensures step { StepEnds W.told MakeBarrier result (at (D.seen device.old) self.old watch.old) (at (D.seen device.new) self.new watch.new) }
        ensures cause { HasCause result (D.seen device.old) (D.seen device.new) }
    {
        match self.cache.barrier(device) {
            Ok(()) => {}
            Err(failed) => return Err(failed),
        }
        self.graph.barrier();
        watch.fixed();
        Ok(())
    }
}
