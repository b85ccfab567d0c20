// A session by its words.
ghost use Rattle.std.specs.Prelude.{◌≡◌, ◌<◌, ◌+◌, ◌^◌, map};
ghost use Rattle.std.specs.String.{string_bytes};
ghost use Rattle.cli_words.specs.Grammar.{Means};
ghost use Rattle.cli_words.specs.declared.jobs.Job.TheVariants as job;
ghost use Rattle.page_device.specs.Meaning.{FaultRose};
ghost use Rattle.session.specs.Flat.{DoneSession, Session};
ghost use Rattle.session.specs.Stopped.{CutSession};

use byte_ports::{Sink, Source};
use page_device::Device;
use session::{Status, cut_session, done_session, run, session_of_words};
use std::alloc::Global;

/// The program with the words `trace`, and what came of it by its status.
pub fn serve<S: Source, K: Sink, D: Device>(
    alloc: Global,
    words: &[String],
    source: &mut S,
    sink: &mut K,
    device: &mut D,
) -> Status
    requires { Means (map string_bytes words.now) (job.Trace 512 0) }
    ensures source_cause { result ≡ Status.SourceFault → (S.seen source.old).faults + 1 < 2 ^ 64 → (S.seen source.old).faults < (S.seen source.new).faults }
    ensures sink_cause { result ≡ Status.SinkFault → (K.seen sink.old).faults + 1 < 2 ^ 64 → (K.seen sink.old).faults < (K.seen sink.new).faults }
    ensures device_cause { result ≡ Status.DeviceFault → FaultRose (D.seen device.old) (D.seen device.new) }
    ensures session { Session result (D.seen device.old) (D.seen device.new) (S.seen source.old) (S.seen source.new) (K.seen sink.old) (K.seen sink.new) }
    ensures done { result ≡ Status.Done → DoneSession (D.seen device.old) (D.seen device.new) (S.seen source.old) (S.seen source.new) (K.seen sink.old) (K.seen sink.new) }
    ensures cut { result ≡ Status.SinkFault → CutSession (D.seen device.old) (D.seen device.new) (S.seen source.old) (S.seen source.new) (K.seen sink.old) (K.seen sink.new) }
{
    session_of_words();
    done_session();
    cut_session();
    run(alloc, words, source, sink, device)
}
