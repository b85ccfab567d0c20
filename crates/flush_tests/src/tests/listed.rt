// A watch that lists what it is told.
ghost use Rattle.std.specs.Prelude.{⊤};

use flush_engine::Watch;

/// One call of a watch.
#[derive(Clone, Copy, Debug, PartialEq, Eq, Drop)]
pub enum Told {
    Tried(u32),
    Written(u32),
    Fixed,
}

/// Lists its calls, as far as there is room.
#[derive(Drop)]
pub struct Listed {
    pub calls: Vec<Told>,
}

impl Listed {
    fn note(&mut self, call: Told) {
        if self.calls.len() < self.calls.capacity() {
            self.calls.push_reserved(call);
        }
    }
}

impl Watch for Listed {
    // What it lists is looked at when the test runs, so no clause needs to tell it.
    ghost told = { record { tried = λ old page new. ⊤; written = λ old page new. ⊤; fixed = λ old new. ⊤ } };

    fn tried(&mut self, page: u32) {
        self.note(Told::Tried(page));
    }

    fn written(&mut self, page: u32) {
        self.note(Told::Written(page));
    }

    fn fixed(&mut self) {
        self.note(Told::Fixed);
    }
}
