// What is told of each write and barrier.
ghost use Rattle.flush_engine.specs.Telling.{Telling};

/// Is told of each write and barrier that an engine makes, beside it. What a caller keeps beside the engine, as what may be on the
/// device at a crash, is kept up to date by it.
///
/// No call can fail, and none takes memory.
pub trait Watch {
    /// How it takes each call: a relation between what it was before, the page if there is one, and what it is after.
    ghost told: { Telling Self };

    /// A page is handed to the device. The device may have its content, whatever the write answers. The engine calls this before
    /// the write; no clause says which of the two comes first.
    fn tried(&mut self, page: u32)
        ensures { told.tried self.old page self.new };

    /// The write of the page that was tried last succeeded.
    fn written(&mut self, page: u32)
        ensures { told.written self.old page self.new };

    /// A barrier succeeded.
    fn fixed(&mut self)
        ensures { told.fixed self.old self.new };
}
