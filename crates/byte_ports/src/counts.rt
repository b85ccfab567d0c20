// What a port counts.
ghost use Rattle.std.specs.Prelude.{◌≡◌, IsErr};
ghost use Rattle.page_device.specs.Counts.{OneFault, raised};
ghost use Rattle.byte_ports.specs.Source.{ends_after};

use page_device::Failed;

/// Counts a fault, and answers it.
pub fn fail(faults: &mut u64) -> Result<usize, Failed>
    ensures err { IsErr result }
    ensures count { faults.new ≡ raised faults.old 1 }
    ensures cause { OneFault result faults.old faults.new }
{
    *faults = faults.saturating_add(1);
    Err(Failed)
}

/// What a source gave so far.
#[derive(Drop)]
pub struct Given {
    /// The bytes.
    pub bytes: u64,
    /// The calls for a piece that is not empty that gave none.
    pub ends: u64,
}

impl Given {
    /// Nothing was given yet.
    pub fn new() -> Given
        ensures { result ≡ record { bytes = 0; ends = 0 } }
    {
        Given { bytes: 0, ends: 0 }
    }

    /// Counts a call that gave so many bytes to a piece of this size.
    pub fn count(&mut self, bytes: usize, size: usize)
        ensures { self.new ≡ record {
          bytes = raised self.old.bytes bytes;
          ends = ends_after self.old.ends bytes size;
        } }
    {
        self.bytes = self.bytes.saturating_add(bytes as u64);
        if bytes == 0 && size > 0 {
            self.ends = self.ends.saturating_add(1);
        }
    }
}
