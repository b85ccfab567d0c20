// Waves: all pages that are due, in rising order, and then a barrier.
ghost use Rattle.std.specs.Prelude.{◌≡◌, ◌≤◌, ℕ, true, false, None, vec_capacity};
ghost use Rattle.dep_graph.specs.Lists.{is_ready};
ghost use Rattle.dep_graph.specs.Pages.{holds, IsLeast, IsRising};
ghost use Rattle.flush_engine.specs.View.{Fits, IsWhole, Returned, at};
ghost use Rattle.flush_engine.specs.Waves.{AreDue, GoesOn, IsDue, IsOver, WaveEnds, WavesEnd, WritesEnd};

use crate::watch::Watch;
use crate::writer::Writer;
use page_device::{Device, Failed};

impl Writer {
    // The least ready page at or above a number.
    pub(crate) fn first_ready(&self, from: u32) -> Option<u32>
        ensures { IsLeast (IsDue self.now.graph None) from result }
    {
        self.graph.first_ready(from)
    }

    // Lists the pages that are due, in rising order.
    fn list_due(&mut self, target: Option<u32>, due: &mut Vec<u32>)
        requires whole { IsWhole self.old }
        requires room { self.old.room ≤ vec_capacity due.old }
        ensures due { AreDue self.old.graph target due.new.items }
        ensures room { vec_capacity due.old ≤ vec_capacity due.new }
        ensures same { self.new ≡ self.old }
    {
        match target {
            None => self.graph.list_ready(due),
            Some(target) => self.graph.list_ready_before(target, due),
        }
    }

    // Whether a further wave is to be made.
    fn goes_on(&self, target: Option<u32>) -> bool
        ensures on { result ≡ true → GoesOn self.now.graph target }
        ensures over { result ≡ false → IsOver self.now.graph target }
    {
        match target {
            None => self.has_node(),
            Some(target) => self.graph.is_dirty(target) || self.graph.is_hung(target),
        }
    }

    // Whether some page is dirty or hung.
    fn has_node(&self) -> bool
        ensures on { result ≡ true → GoesOn self.now.graph None }
        ensures over { result ≡ false → IsOver self.now.graph None }
    {
        self.graph.nodes() > 0
    }

    // Writes these pages, which are ready, one after another.
    fn write_each<D: Device, W: Watch>(
        &mut self,
        device: &mut D,
        pages: &[u32],
        watch: &mut W,
    ) -> Result<(), Failed>
        requires rising { IsRising pages.now }
        requires ready { (a : ℕ) → holds pages.now a ≡ true → is_ready self.old.graph a ≡ true }
        requires fits { Fits self.old (D.seen device.old) }
        ensures writes { WritesEnd W.told pages.now result (at (D.seen device.old) self.old watch.old) (at (D.seen device.new) self.new watch.new) }
        ensures returned { Returned result (at (D.seen device.old) self.old watch.old) (at (D.seen device.new) self.new watch.new) }
    {
        for page in pages {
            match self.write(device, *page, watch) {
                Ok(()) => {}
                Err(failed) => return Err(failed),
            }
        }
        Ok(())
    }

    // Writes each page that is due, in rising order, and then makes a barrier.
    fn wave<D: Device, W: Watch>(
        &mut self,
        device: &mut D,
        target: Option<u32>,
        due: &mut Vec<u32>,
        watch: &mut W,
    ) -> Result<(), Failed>
        requires goes_on { GoesOn self.old.graph target }
        requires fits { Fits self.old (D.seen device.old) }
        requires room { self.old.room ≤ vec_capacity due.old }
        ensures wave { WaveEnds W.told target result (at (D.seen device.old) self.old watch.old) (at (D.seen device.new) self.new watch.new) }
        ensures returned { Returned result (at (D.seen device.old) self.old watch.old) (at (D.seen device.new) self.new watch.new) }
        ensures room { vec_capacity due.old ≤ vec_capacity due.new }
    {
        self.list_due(target, due);
        match self.write_each(device, due, watch) {
            Ok(()) => {}
            Err(failed) => return Err(failed),
        }
        self.barrier(device, watch)
    }

    // Makes waves until they are over: those for one page, or for all where the target is none. The vector is for the pages of a wave.
    pub(crate) fn waves<D: Device, W: Watch>(
        &mut self,
        device: &mut D,
        target: Option<u32>,
        due: &mut Vec<u32>,
        watch: &mut W,
    ) -> Result<(), Failed>
        requires fits { Fits self.old (D.seen device.old) }
        requires room { self.old.room ≤ vec_capacity due.old }
        ensures waves { WavesEnd W.told target result (at (D.seen device.old) self.old watch.old) (at (D.seen device.new) self.new watch.new) }
        ensures returned { Returned result (at (D.seen device.old) self.old watch.old) (at (D.seen device.new) self.new watch.new) }
        ensures room { vec_capacity due.old ≤ vec_capacity due.new }
    {
        while self.goes_on(target) {
            match self.wave(device, target, due, watch) {
                Ok(()) => {}
                Err(failed) => return Err(failed),
            }
        }
        Ok(())
    }
}
