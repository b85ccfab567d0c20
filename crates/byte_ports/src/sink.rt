// A sink of bytes, as everything above sees it.
ghost use Rattle.std.specs.Prelude.{◌≡◌, ◌<◌, ◌≤◌, length, take, IfOk, OnOk, OnErr};
ghost use Rattle.byte_ports.specs.Fault.{CountsFault};
ghost use Rattle.page_device.specs.Counts.{OneFault};
ghost use Rattle.byte_ports.specs.Sink.{SinkMeaning, Takes, TakesFront};

use page_device::Failed;

/// What takes bytes, piece by piece.
///
/// Each call that answers `Failed` raises the sink's count of faults by one, and no other call changes it: a
/// call that was interrupted and tried again is no fault. Whether it tells the bytes that it holds is a meaning
/// that no call changes. A count stands still at its end.
pub trait Sink {
    /// What it tells of itself.
    ghost seen: { Self → SinkMeaning };

    /// Takes a front of the piece, and gives the number of its bytes: at least one where the piece is
    /// not empty. After `Failed` the sink holds what it held and some front of the piece. It does not say how many bytes
    /// more than one it takes, nor that a call ever succeeds.
    fn put(&mut self, from: &[u8]) -> Result<usize, Failed>
        ensures cause { OneFault result (seen self.old).faults (seen self.new).faults }
        ensures bound { IfOk result (λ n. n ≤ length from.now) }
        ensures some { IfOk result (λ n. 0 < length from.now → 0 < n) }
        ensures taken { IfOk result (λ n. Takes (take n from.now) (seen self.old) (seen self.new)) }
        ensures failed { OnErr result (TakesFront from.now (seen self.old) (seen self.new)) };
}

/// Puts the whole piece, in as many calls as the sink needs, and stops at the first that fails. After
/// `Failed` the sink holds what it held and some front of the piece, which may be all of it. At most one
/// call of `put` for each byte; no clause says how many.
pub fn put_all<K: Sink>(sink: &mut K, from: &[u8]) -> Result<(), Failed>
    ensures cause { CountsFault result (K.seen sink.old).faults (K.seen sink.new).faults }
    ensures all { OnOk result (Takes from.now (K.seen sink.old) (K.seen sink.new)) }
    ensures failed { OnErr result (TakesFront from.now (K.seen sink.old) (K.seen sink.new)) }
{
    let mut at = 0;
    while at < from.len() {
        match sink.put(&from[at..]) {
            Ok(taken) => at += taken,
            Err(failed) => return Err(failed),
        }
    }
    Ok(())
}
