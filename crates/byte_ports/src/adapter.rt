// std's readers and writers as sources and sinks.
ghost use Rattle.std.specs.Prelude.{◌≡◌, ◌⊎◌, ◌<◌, ◌≤◌, false, true, length, take, IfOk, OnErr, IsSome};
ghost use Rattle.std.specs.Io.KnownBytes.{ReadConsumes, WriteAppends};
ghost use Rattle.page_device.specs.Counts.{OneFault};
ghost use Rattle.byte_ports.specs.Adapter.{reader_told, writer_told};
ghost use Rattle.byte_ports.specs.Sink.{Takes, TakesFront, sink_counted};
ghost use Rattle.byte_ports.specs.Source.{Gives, IsEnd, GivesNothing, source_counted};

use crate::counts::{Given, fail};
use crate::{Sink, Source};
use page_device::Failed;
use std::io::{ErrorKind, Read, Write};
use std::marker::Model;

// How often a call is tried where signals interrupt it, so that each call ends.
const MOST_TRIES: u32 = u32::MAX;

/// A reader of std as a source.
///
/// A call that a signal interrupted is tried again, up to 2^32 - 1 times in all; every other error is a
/// fault. A call of `take` costs one read of the reader, beside those that were interrupted. The counts of
/// bytes, ends and faults are exact over every reader.
#[derive(Drop)]
pub struct StdSource<R: Read> {
    inner: R,
    // Whether contracts speak of the bytes that the reader has left.
    tells: bool,
    faults: u64,
    given: Given,
}

impl<R: Read> Model for StdSource<R> {
    ghost use Rattle.std.specs.Prelude.{◌≡◌, true, IsSome};
    ghost use Rattle.byte_ports.specs.Source.{SourceMeaning};
    ghost use Rattle.byte_ports.specs.Adapter.{reader_told};

    ghost Value = { SourceMeaning };

    ghost view = { λ s. reader_told s.tells (R.remaining s.inner) s.faults s.given.bytes s.given.ends };

    ghost invariant = { λ s. s.tells ≡ true → IsSome (R.remaining s.inner) };
}

impl<R: Read> StdSource<R> {
    /// A source over any reader. It does not tell what the reader has left, since a reader that tells
    /// nothing may begin to. Takes no memory, which no clause says.
    pub fn new(inner: R) -> StdSource<R>
        ensures { result ≡ reader_told false (R.remaining inner) 0 0 0 }
    {
        StdSource {
            inner,
            tells: false,
            faults: 0,
            given: Given::new(),
        }
    }

    /// A source over a reader of known bytes, as a slice or a cursor. It tells what the reader has left.
    /// Takes no memory, which no clause says.
    pub fn telling(inner: R) -> StdSource<R>
        requires { IsSome (R.remaining inner) }
        ensures { result ≡ reader_told true (R.remaining inner) 0 0 0 }
    {
        StdSource {
            inner,
            tells: true,
            faults: 0,
            given: Given::new(),
        }
    }
}

// One read, tried again where a signal interrupts it.
fn read_again<R: Read>(inner: &mut R, into: &mut [u8]) -> Result<usize, Failed>
    ensures bound { IfOk result (λ n. n ≤ length into.new) }
    ensures bytes { ReadConsumes (R.remaining inner.old) (R.remaining inner.new) result into.new }
{
    for _ in 0..MOST_TRIES {
        match inner.read(into) {
            Ok(count) => return Ok(count),
            Err(error) if error.kind() == ErrorKind::Interrupted => {}
            Err(_) => return Err(Failed),
        }
    }
    Err(Failed)
}

impl<R: Read> Source for StdSource<R> {
    ghost seen = { λ s. s };

    fn take(&mut self, into: &mut [u8]) -> Result<usize, Failed>
        ensures cause { OneFault result self.old.faults self.new.faults }
        ensures bound { IfOk result (λ n. n ≤ length into.new) }
        ensures given { IfOk result (λ n. Gives (take n into.new) self.old self.new) }
        ensures end { IfOk result (λ n. n ≡ 0 → 0 < length into.new → IsEnd self.old self.new) }
        ensures no_end { IfOk result (λ n. (0 < n) ⊎ (length into.new ≡ 0) → self.new.ends ≡ self.old.ends) }
        ensures failed { OnErr result (GivesNothing self.old self.new) }
        ensures counts { self.new ≡ record (source_counted result (length into.new) self.old) { left = self.new.left } }
    {
        let Ok(count) = read_again(&mut self.inner, into) else {
            return fail(&mut self.faults);
        };
        self.given.count(count, into.len());
        Ok(count)
    }
}

/// A writer of std as a sink.
///
/// A call that a signal interrupted is tried again, up to 2^32 - 1 times in all; every other error is a
/// fault, and so is a write that takes nothing of a piece that is not empty. A call of `put` costs one
/// write of the writer, beside those that were interrupted. The writer is not flushed. The count of faults is
/// exact over every writer.
#[derive(Drop)]
pub struct StdSink<W: Write> {
    inner: W,
    // Whether contracts speak of the bytes that the writer holds.
    tells: bool,
    faults: u64,
}

impl<W: Write> Model for StdSink<W> {
    ghost use Rattle.std.specs.Prelude.{◌≡◌, true, IsSome};
    ghost use Rattle.byte_ports.specs.Sink.{SinkMeaning};
    ghost use Rattle.byte_ports.specs.Adapter.{writer_told};

    ghost Value = { SinkMeaning };

    ghost view = { λ s. writer_told s.tells (W.contents s.inner) s.faults };

    ghost invariant = { λ s. s.tells ≡ true → IsSome (W.contents s.inner) };
}

impl<W: Write> StdSink<W> {
    /// A sink over any writer. It does not tell what the writer holds, since a writer that tells nothing
    /// may begin to. Takes no memory, which no clause says.
    pub fn new(inner: W) -> StdSink<W>
        ensures { result ≡ writer_told false (W.contents inner) 0 }
    {
        StdSink {
            inner,
            tells: false,
            faults: 0,
        }
    }

    /// A sink over a writer of known bytes, as a vector. It tells what the writer holds. Takes no memory, which no clause
    /// says.
    pub fn telling(inner: W) -> StdSink<W>
        requires { IsSome (W.contents inner) }
        ensures { result ≡ writer_told true (W.contents inner) 0 }
    {
        StdSink {
            inner,
            tells: true,
            faults: 0,
        }
    }
}

// One write, tried again where a signal interrupts it.
fn write_again<W: Write>(inner: &mut W, from: &[u8]) -> Result<usize, Failed>
    ensures bound { IfOk result (λ n. n ≤ length from.now) }
    ensures bytes { WriteAppends (W.contents inner.old) (W.contents inner.new) result from.now }
{
    for _ in 0..MOST_TRIES {
        match inner.write(from) {
            Ok(count) => return Ok(count),
            Err(error) if error.kind() == ErrorKind::Interrupted => {}
            Err(_) => return Err(Failed),
        }
    }
    Err(Failed)
}

impl<W: Write> Sink for StdSink<W> {
    ghost seen = { λ s. s };

    fn put(&mut self, from: &[u8]) -> Result<usize, Failed>
        ensures cause { OneFault result self.old.faults self.new.faults }
        ensures bound { IfOk result (λ n. n ≤ length from.now) }
        ensures some { IfOk result (λ n. 0 < length from.now → 0 < n) }
        ensures taken { IfOk result (λ n. Takes (take n from.now) self.old self.new) }
        ensures failed { OnErr result (TakesFront from.now self.old self.new) }
        ensures counts { self.new ≡ record (sink_counted result self.old) { held = self.new.held } }
    {
        match write_again(&mut self.inner, from) {
            Ok(0) if !from.is_empty() => fail(&mut self.faults),
            Ok(count) => Ok(count),
            Err(_) => fail(&mut self.faults),
        }
    }
}
