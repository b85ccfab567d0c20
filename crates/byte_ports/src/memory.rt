// A source and a sink in memory, which tell everything and fail where they are told to.
ghost use Rattle.std.specs.Prelude.{◌≡◌, ◌⊎◌, ◌+◌, ◌<◌, ◌≤◌, ◌++◌, [], true, false, length, take, drop, IsOk, IsErr, IfOk, OnOk, OnErr, vec_len, vec_capacity};
ghost use Rattle.page_device.specs.Counts.{OneFault, raised};
ghost use Rattle.byte_ports.specs.Memory.{fails_at, source_told, portion, source_after, sink_told, sink_after};
ghost use Rattle.byte_ports.specs.Sink.{Takes, TakesFront};
ghost use Rattle.byte_ports.specs.Source.{Gives, IsEnd, GivesNothing};

use crate::counts::{Given, fail};
use crate::plan::Plan;
use crate::{Sink, Source};
use page_device::{Failed, NoMemory};
use std::alloc::Global;
use std::marker::Model;

/// A source over bytes in memory, given in pieces of a size. It tells what it has left.
///
/// Tests and models stand on it: failures can be planned. A call costs what it copies, beside the number
/// of planned failures.
#[derive(Drop)]
pub struct MemSource {
    bytes: Vec<u8>,
    // The bytes that were given.
    at: usize,
    piece: usize,
    plan: Plan,
    given: Given,
}

impl Model for MemSource {
    ghost use Rattle.std.specs.Prelude.{◌≤◌, length, drop};
    ghost use Rattle.byte_ports.specs.Memory.{MemSourceView};

    ghost Value = { MemSourceView };

    ghost view = { λ s. record {
      left = drop s.at s.bytes.items;
      piece = s.piece;
      fails = s.plan.fails.items;
      calls = s.plan.calls;
      faults = s.plan.faults;
      given = s.given.bytes;
      ends = s.given.ends;
    } };

    ghost invariant = { λ s. s.at ≤ length s.bytes.items };
}

impl MemSource {
    /// A source that gives these bytes, in order, at most `piece` of them in one call, and one where
    /// `piece` is 0. The calls of the numbers `fails`, counted from 1, fail, and no others. Takes no
    /// memory, which no clause says.
    pub fn new(bytes: Vec<u8>, piece: usize, fails: Vec<u64>) -> MemSource
        ensures { result ≡ record {
          left = bytes.items;
          piece = piece;
          fails = fails.items;
          calls = 0;
          faults = 0;
          given = 0;
          ends = 0;
        } }
    {
        MemSource {
            bytes,
            at: 0,
            piece,
            plan: Plan::new(fails),
            given: Given::new(),
        }
    }

    // Copies the next bytes into the front of the piece.
    fn copy_next(&mut self, into: &mut [u8]) -> usize
        ensures count { result ≡ portion self.old (length into.old) }
        ensures copied { into.new ≡ take result self.old.left ++ drop result into.old }
        ensures left { self.new ≡ record self.old { left = drop result self.old.left } }
    {
        let left = &self.bytes[self.at..];
        let count = self.piece.max(1).min(left.len()).min(into.len());
        into[..count].copy_from_slice(&left[..count]);
        self.at += count;
        count
    }
}

impl Source for MemSource {
    ghost use Rattle.byte_ports.specs.Memory.{source_told};

    ghost seen = { source_told };

    fn take(&mut self, into: &mut [u8]) -> Result<usize, Failed>
        ensures cause { OneFault result self.old.faults self.new.faults }
        ensures bound { IfOk result (λ n. n ≤ length into.new) }
        ensures given { IfOk result (λ n. Gives (take n into.new) (source_told self.old) (source_told self.new)) }
        ensures end { IfOk result (λ n. n ≡ 0 → 0 < length into.new → IsEnd (source_told self.old) (source_told self.new)) }
        ensures no_end { IfOk result (λ n. (0 < n) ⊎ (length into.new ≡ 0) → self.new.ends ≡ self.old.ends) }
        ensures failed { OnErr result (GivesNothing (source_told self.old) (source_told self.new)) }
        ensures planned { fails_at self.old.fails (raised self.old.calls 1) ≡ true → IsErr result }
        ensures unplanned { fails_at self.old.fails (raised self.old.calls 1) ≡ false → result ≡ Ok (portion self.old (length into.new)) }
        ensures copied { IfOk result (λ n. into.new ≡ take n self.old.left ++ drop n into.old) }
        ensures after { self.new ≡ source_after result (length into.new) self.old }
    {
        if self.plan.next_fails() {
            return fail(&mut self.plan.faults);
        }
        let count = self.copy_next(into);
        self.given.count(count, into.len());
        Ok(count)
    }
}

/// A sink that collects bytes in memory. It tells what it holds.
///
/// Tests and models stand on it: failures can be planned. A call costs what it copies, beside the number
/// of planned failures, and where room is made, what is held.
#[derive(Drop)]
pub struct MemSink {
    held: Vec<u8>,
    plan: Plan,
}

impl Model for MemSink {
    ghost use Rattle.std.specs.Prelude.{◌-◌, vec_len, vec_capacity};
    ghost use Rattle.byte_ports.specs.Memory.{MemSinkView};

    ghost Value = { MemSinkView };

    ghost view = { λ s. record {
      held = s.held.items;
      spare = vec_capacity s.held - vec_len s.held;
      fails = s.plan.fails.items;
      calls = s.plan.calls;
      faults = s.plan.faults;
    } };
}

impl MemSink {
    /// A sink that holds nothing. The calls of `put` of the numbers `fails`, counted from 1, fail, and of
    /// the others only those for whose bytes no memory is found. Takes no memory, which no clause says, nor how many
    /// bytes find room.
    pub fn new(alloc: Global, fails: Vec<u64>) -> MemSink
        ensures held { result.held ≡ [] }
        ensures fails { result.fails ≡ fails.items }
        ensures calls { result.calls ≡ 0 }
        ensures faults { result.faults ≡ 0 }
    {
        MemSink {
            held: Vec::new(alloc),
            plan: Plan::new(fails),
        }
    }

    /// Makes room for at least so many further bytes: no `put` within them fails but where it is planned.
    /// After an error nothing is changed. It does not say that there is memory for the room.
    pub fn reserve(&mut self, bytes: usize) -> Result<(), NoMemory>
        ensures same { self.new ≡ record self.old { spare = self.new.spare } }
        ensures never_fewer { self.old.spare ≤ self.new.spare }
        ensures ok { OnOk result (bytes ≤ self.new.spare) }
        ensures err { OnErr result (self.new ≡ self.old) }
        ensures succeeds { bytes ≤ self.old.spare → IsOk result }
    {
        match self.held.reserve(bytes) {
            Ok(()) => Ok(()),
            Err(_) => Err(NoMemory),
        }
    }

    /// The bytes that it holds. The contract leaves out what it costs: nothing.
    pub fn bytes(&self) -> &[u8]
        ensures { result.now ≡ self.now.held }
    {
        self.held.as_slice()
    }
}

impl Sink for MemSink {
    ghost use Rattle.byte_ports.specs.Memory.{sink_told};

    ghost seen = { sink_told };

    fn put(&mut self, from: &[u8]) -> Result<usize, Failed>
        ensures cause { OneFault result self.old.faults self.new.faults }
        ensures bound { IfOk result (λ n. n ≤ length from.now) }
        ensures some { IfOk result (λ n. 0 < length from.now → 0 < n) }
        ensures taken { IfOk result (λ n. Takes (take n from.now) (sink_told self.old) (sink_told self.new)) }
        ensures failed { OnErr result (TakesFront from.now (sink_told self.old) (sink_told self.new)) }
        ensures planned { fails_at self.old.fails (raised self.old.calls 1) ≡ true → IsErr result }
        ensures unplanned { fails_at self.old.fails (raised self.old.calls 1) ≡ false → length from.now ≤ self.old.spare → IsOk result }
        ensures whole { IfOk result (λ n. n ≡ length from.now) }
        ensures after { self.new ≡ record (sink_after result from.now self.old) { spare = self.new.spare } }
        ensures spare { self.old.spare ≤ self.new.spare + length from.now }
        ensures kept { OnErr result (self.old.spare ≤ self.new.spare) }
    {
        if self.plan.next_fails() {
            return fail(&mut self.plan.faults);
        }
        match self.held.extend_from_slice(from) {
            Ok(()) => Ok(from.len()),
            Err(_) => fail(&mut self.plan.faults),
        }
    }
}
