// A session over a store: its input is read, its lines are answered, and it closes.
ghost use Rattle.std.specs.Prelude.{◌≡◌, ℕ, ◌≤◌, ◌<◌, ◌+◌, ◌^◌, ◌++◌, ◌∷◌, [], List, length};
ghost use Rattle.byte_ports.specs.Fault.{CountsFault};
ghost use Rattle.page_device.specs.Meaning.{FaultRose};
ghost use Rattle.session.specs.Answers.{Fits, at};
ghost use Rattle.session.specs.Session.{Begin, SoFarWith, Goes};
ghost use Rattle.session.specs.Endings.{RestAnswered, ClosesAs, Closed, EndsAs, Served};
ghost use Rattle.session.specs.Reading.{Reads};

use crate::line::Line;
use crate::status::{Status, end_with};
use crate::turns::turn;
use byte_ports::{Sink, Source};
use dedup_writer::Store;
use page_device::{Device, Failed};

/// Serves a session of the trace language: takes lines from the source to its end, answers each, and
/// closes by a flush. A rest that no LF ends is one more line. A fault of the device is the reply `fault`
/// of its command, and the session goes on.
///
/// The session ends early, without a flush, where the source or the sink fails, and once it has taken
/// 2^40 bytes. It puts a last line for each status but `Done` and `SinkFault`.
///
/// Linear in the input, beside what the commands cost; keeps one line and takes no memory.
pub fn serve_trace<S: Source, K: Sink, D: Device>(
    store: &mut Store,
    device: &mut D,
    source: &mut S,
    sink: &mut K,
) -> Status
    requires { Fits store.old (D.seen device.old) }
    ensures never_falls { (D.seen device.old).faults ≤ (D.seen device.new).faults }
    ensures source_rises { (S.seen source.old).faults ≤ (S.seen source.new).faults }
    ensures sink_rises { (K.seen sink.old).faults ≤ (K.seen sink.new).faults }
    ensures source_cause { result ≡ Status.SourceFault → (S.seen source.old).faults + 1 < 2 ^ 64 → (S.seen source.old).faults < (S.seen source.new).faults }
    ensures sink_cause { result ≡ Status.SinkFault → (K.seen sink.old).faults + 1 < 2 ^ 64 → (K.seen sink.old).faults < (K.seen sink.new).faults }
    ensures device_cause { result ≡ Status.DeviceFault → FaultRose (D.seen device.old) (D.seen device.new) }
    ensures one_of { EndsAs result }
    ensures fits { Fits store.new (D.seen device.new) }
    ensures served { Served (record { moment = at store.old (D.seen device.old); sink = K.seen sink.old }) result (at store.new (D.seen device.new)) (S.seen source.old) (S.seen source.new) (K.seen sink.new) }
{
    let mut line = Line::new();
    match answer_all(&mut line, store, device, source, sink) {
        Stop::End => close(&line, store, device, sink),
        Stop::Source => end_with(Status::SourceFault, sink),
        Stop::Sink => Status::SinkFault,
        Stop::Limit => end_with(Status::InputLimit, sink),
    }
}

// Why the reading of an input stopped.
#[derive(Clone, Copy, Drop)]
enum Stop {
    // The input is at its end.
    End,
    // The source failed.
    Source,
    // The sink failed.
    Sink,
    // As many bytes were taken as one session may take.
    Limit,
}

// What ends a line.
const LINE_END: u8 = b'\n';

// The most bytes that one session takes, and the most that are taken at once.
const LIMIT: u64 = 1_099_511_627_776;

const PIECE: usize = 4096;

// How many of the bytes that may still be taken are taken at once.
fn room(left: u64) -> usize
    ensures few { result ≤ 4096 }
    ensures within { result ≤ left }
    ensures some { 0 < left → 0 < result }
{
    if left < 4096 { left as usize } else { PIECE }
}

// Reads the input to its end, and answers each line that ends. The source is not asked again once as
// many bytes were taken as one session may take.
fn answer_all<S: Source, K: Sink, D: Device>(
    line: &mut Line,
    store: &mut Store,
    device: &mut D,
    source: &mut S,
    sink: &mut K,
) -> Stop
    requires { Fits store.old (D.seen device.old) }
    ensures never_falls { (D.seen device.old).faults ≤ (D.seen device.new).faults }
    ensures fits { Fits store.new (D.seen device.new) }
    ensures source_rises { (S.seen source.old).faults ≤ (S.seen source.new).faults }
    ensures sink_rises { (K.seen sink.old).faults ≤ (K.seen sink.new).faults }
    ensures source_cause { result ≡ Stop.Source → (S.seen source.old).faults + 1 < 2 ^ 64 → (S.seen source.old).faults < (S.seen source.new).faults }
    ensures sink_cause { result ≡ Stop.Sink → (K.seen sink.old).faults + 1 < 2 ^ 64 → (K.seen sink.old).faults < (K.seen sink.new).faults }
    ensures reads { Reads result line.old line.new (at store.old (D.seen device.old)) (at store.new (D.seen device.new)) (S.seen source.old) (S.seen source.new) (K.seen sink.old) (K.seen sink.new) }
{
    let mut piece = [0u8; PIECE];
    let mut left = LIMIT;
    while left > 0 {
        let room = room(left);
        match source.take(&mut piece[..room]) {
            Ok(0) => return Stop::End,
            Ok(taken) => match answer_piece(&piece[..taken], line, store, device, sink) {
                Ok(()) => left -= taken as u64,
                Err(_) => return Stop::Sink,
            },
            Err(_) => return Stop::Source,
        }
    }
    Stop::Limit
}

// Takes one byte of the input, and answers the line that it ends.
fn answer_byte<K: Sink, D: Device>(
    byte: u8,
    line: &mut Line,
    store: &mut Store,
    device: &mut D,
    sink: &mut K,
) -> Result<(), Failed>
    requires { Fits store.old (D.seen device.old) }
    ensures never_falls { (D.seen device.old).faults ≤ (D.seen device.new).faults }
    ensures fits { Fits store.new (D.seen device.new) }
    ensures cause { CountsFault result (K.seen sink.old).faults (K.seen sink.new).faults }
    ensures goes { (b : Begin) (bytes : List ℕ) → Goes b bytes (byte ∷ []) result line.old line.new (at store.old (D.seen device.old)) (at store.new (D.seen device.new)) (K.seen sink.old) (K.seen sink.new) }
{
    if byte != LINE_END {
        line.push(byte);
        return Ok(());
    }
    match turn(store, device, line.bytes(), sink) {
        Ok(()) => {
            line.clear();
            Ok(())
        }
        Err(failed) => Err(failed),
    }
}

// Takes a piece of the input, and answers each line that it ends.
fn answer_piece<K: Sink, D: Device>(
    piece: &[u8],
    line: &mut Line,
    store: &mut Store,
    device: &mut D,
    sink: &mut K,
) -> Result<(), Failed>
    requires { Fits store.old (D.seen device.old) }
    ensures never_falls { (D.seen device.old).faults ≤ (D.seen device.new).faults }
    ensures fits { Fits store.new (D.seen device.new) }
    ensures cause { CountsFault result (K.seen sink.old).faults (K.seen sink.new).faults }
    ensures goes { (b : Begin) (bytes : List ℕ) → Goes b bytes piece.now result line.old line.new (at store.old (D.seen device.old)) (at store.new (D.seen device.new)) (K.seen sink.old) (K.seen sink.new) }
{
    for byte in piece {
        match answer_byte(*byte, line, store, device, sink) {
            Ok(()) => {}
            Err(failed) => return Err(failed),
        }
    }
    Ok(())
}

// A rest of the input that no LF ends is one more line, where it is not empty.
fn answer_rest<K: Sink, D: Device>(
    line: &Line,
    store: &mut Store,
    device: &mut D,
    sink: &mut K,
) -> Result<(), Failed>
    requires { Fits store.old (D.seen device.old) }
    ensures never_falls { (D.seen device.old).faults ≤ (D.seen device.new).faults }
    ensures fits { Fits store.new (D.seen device.new) }
    ensures cause { CountsFault result (K.seen sink.old).faults (K.seen sink.new).faults }
    ensures rest { (b : Begin) (bytes : List ℕ) → SoFarWith b bytes line.now (at store.old (D.seen device.old)) (K.seen sink.old)
        → RestAnswered result b bytes (at store.new (D.seen device.new)) (K.seen sink.new) }
{
    if line.is_empty() {
        return Ok(());
    }
    turn(store, device, line.bytes(), sink)
}

// The input is at its end: the line that is begun is answered, and everything is put on the device.
fn close<K: Sink, D: Device>(line: &Line, store: &mut Store, device: &mut D, sink: &mut K) -> Status
    requires { Fits store.old (D.seen device.old) }
    ensures device_rises { (D.seen device.old).faults ≤ (D.seen device.new).faults }
    ensures fits { Fits store.new (D.seen device.new) }
    ensures sink_rises { (K.seen sink.old).faults ≤ (K.seen sink.new).faults }
    ensures sink_cause { result ≡ Status.SinkFault → (K.seen sink.old).faults + 1 < 2 ^ 64 → (K.seen sink.old).faults < (K.seen sink.new).faults }
    ensures device_cause { result ≡ Status.DeviceFault → FaultRose (D.seen device.old) (D.seen device.new) }
    ensures one_of { ClosesAs result }
    ensures closed { (b : Begin) (bytes : List ℕ) → SoFarWith b bytes line.now (at store.old (D.seen device.old)) (K.seen sink.old)
        → Closed b bytes result (at store.new (D.seen device.new)) (K.seen sink.new) }
{
    match answer_rest(line, store, device, sink) {
        Ok(()) => match store.flush(device) {
            Ok(()) => Status::Done,
            Err(_) => end_with(Status::DeviceFault, sink),
        },
        Err(_) => Status::SinkFault,
    }
}
