// What a line of a trace asks for.
use page_device::Page;

/// A command. Blocks are logical blocks, counted from 0.
#[derive(Drop)]
pub enum Command {
    /// The block gets the numbered block: eight bytes, highest first, and then zeros.
    Write { block: u32, number: u64 },
    /// The block gets these bytes.
    Fill { block: u32, page: Page },
    Read { block: u32 },
    /// The block reads as zeros from then on.
    Discard { block: u32 },
    /// Blocks `to` to `to + n - 1` get the contents of `from` to `from + n - 1`.
    Copy { from: u32, to: u32, n: u32 },
    /// All that was answered is on the device when it ends.
    Flush,
    /// Sets the counts to what the map says.
    Scan,
    /// The numbers of the store.
    Stat,
    /// Takes the next unused policy of this label.
    Policy { label: u32 },
    /// Hands a number to the policy at work.
    Tune { n: u32 },
    /// Does nothing but take a turn.
    Tick,
}
