// A source of bytes, as everything above sees it.
ghost use Rattle.std.specs.Prelude.{◌≡◌, ◌⊎◌, ◌<◌, ◌≤◌, length, take, IfOk, OnErr};
ghost use Rattle.page_device.specs.Counts.{OneFault};
ghost use Rattle.byte_ports.specs.Source.{SourceMeaning, Gives, IsEnd, GivesNothing};

use page_device::Failed;

/// What gives bytes, piece by piece.
///
/// Each call that answers `Failed` raises the source's count of faults by one, and no other call changes it:
/// a call that was interrupted and tried again is no fault. Whether it tells the bytes that it has left is a
/// meaning that no call changes. A count stands still at its end.
pub trait Source {
    /// What it tells of itself.
    ghost seen: { Self → SourceMeaning };

    /// Takes the next bytes into the front of the piece, and gives their number. 0 for a piece that is
    /// not empty is the end: nothing is left, and the source counts an end. After `Failed` nothing was
    /// given, and nothing is known of the piece. It does not say how many bytes come while some are left, nor that a call
    /// ever succeeds.
    fn take(&mut self, into: &mut [u8]) -> Result<usize, Failed>
        ensures cause { OneFault result (seen self.old).faults (seen self.new).faults }
        ensures bound { IfOk result (λ n. n ≤ length into.new) }
        ensures given { IfOk result (λ n. Gives (take n into.new) (seen self.old) (seen self.new)) }
        ensures end { IfOk result (λ n. n ≡ 0 → 0 < length into.new → IsEnd (seen self.old) (seen self.new)) }
        ensures no_end { IfOk result (λ n. (0 < n) ⊎ (length into.new ≡ 0) → (seen self.new).ends ≡ (seen self.old).ends) }
        ensures failed { OnErr result (GivesNothing (seen self.old) (seen self.new)) };
}
