// The calls of a port in memory: which of them are to fail.
ghost use Rattle.std.specs.Prelude.{◌≡◌};
ghost use Rattle.page_device.specs.Counts.{raised};
ghost use Rattle.byte_ports.specs.Memory.{fails_at};

/// The planned failures of a port, and its counts of calls and of faults.
#[derive(Drop)]
pub struct Plan {
    /// The numbers of the calls that fail, counted from 1.
    pub fails: Vec<u64>,
    pub calls: u64,
    pub faults: u64,
}

impl Plan {
    /// No call was made yet.
    pub fn new(fails: Vec<u64>) -> Plan
        ensures { result ≡ record { fails = fails; calls = 0; faults = 0 } }
    {
        Plan {
            fails,
            calls: 0,
            faults: 0,
        }
    }

    /// Counts a call, and tells whether it is planned to fail.
    pub fn next_fails(&mut self) -> bool
        ensures counted { self.new ≡ record self.old { calls = raised self.old.calls 1 } }
        ensures planned { result ≡ fails_at self.old.fails.items (raised self.old.calls 1) }
    {
        self.calls = self.calls.saturating_add(1);
        self.fails.contains(&self.calls)
    }
}
