// What a crash leaves.
ghost use Rattle.std.specs.Prelude.{◌≡◌, true, map, List};
ghost use Rattle.std.specs.String.{string_bytes};
ghost use Rattle.cli_words.specs.Grammar.{Means};
ghost use Rattle.cli_words.specs.declared.jobs.Job.TheVariants as job;
ghost use Rattle.page_device.specs.Gains.{IsLeft};
ghost use Rattle.page_device.specs.Meaning.{IsCounted};
ghost use Rattle.array_model.specs.Images.{IsFit};
ghost use Rattle.session.specs.Run.{IsReady};
ghost use Rattle.conclusions.specs.Sentences.{LeavesFit, ReadsAllowed};

use crate::words::serve;
use array_model::crash_reads_a_content;
use byte_ports::{Sink, Source};
use page_device::Device;
use session::Status;
use std::alloc::Global;

/// Over a fit image, whatever the input, whichever calls fail and however the session ends: a crash after any
/// number of the device calls leaves a fit image.
pub fn crash_leaves_a_fit_image<S: Source, K: Sink, D: Device>(
    alloc: Global,
    words: &[String],
    source: &mut S,
    sink: &mut K,
    device: &mut D,
) -> Status
    requires words { Means (map string_bytes words.now) (job.Trace 512 0) }
    requires device { IsReady (D.seen device.old) }
    requires fit { IsFit (D.seen device.old).state.fixed }
    requires log { (D.seen device.old).tells_log ≡ true }
    ensures { IsCounted (D.seen device.new) → LeavesFit (D.seen device.old) (D.seen device.new) }
{
    serve(alloc, words, source, sink, device)
}

/// Two sessions in a row, with a crash in each. The first is over a fit image, and its crash, after any number of the
/// device calls, left the image over which the second begins: then a crash in that one leaves a fit image again.
pub fn crash_after_a_crash<S: Source, K: Sink, D: Device, L: Device>(
    alloc: Global,
    words: &[String],
    source: &mut S,
    sink: &mut K,
    device: &mut D,
    later: &mut L,
) -> (Status, Status)
    requires words { Means (map string_bytes words.now) (job.Trace 512 0) }
    requires device { IsReady (D.seen device.old) }
    requires fit { IsFit (D.seen device.old).state.fixed }
    requires log { (D.seen device.old).tells_log ≡ true }
    requires later { IsReady (L.seen later.old) }
    requires later_log { (L.seen later.old).tells_log ≡ true }
    ensures { IsCounted (D.seen device.new) → IsLeft (D.seen device.old) (D.seen device.new) (L.seen later.old).state.fixed → IsCounted (L.seen later.new)
        → LeavesFit (L.seen later.old) (L.seen later.new) }
{
    let first = serve(alloc, words, source, sink, device);
    let second = serve(alloc, words, source, sink, later);
    (first, second)
}

/// Two sessions in a row that end with status 0, whatever their inputs. The first is over a fit image, and a crash
/// after any number of its device calls leaves each block a content that its turns allow then. Over such an image
/// the second begins, from what the blocks read there, and then a crash leaves each block a content that the turns
/// of the second allow.
pub fn blocks_after_two_crashes<S: Source, T: Source, K: Sink, M: Sink, D: Device, L: Device>(
    alloc: Global,
    words: &[String],
    source: &mut S,
    next: &mut T,
    sink: &mut K,
    report: &mut M,
    device: &mut D,
    later: &mut L,
) -> (Status, Status)
    requires words { Means (map string_bytes words.now) (job.Trace 512 0) }
    requires device { IsReady (D.seen device.old) }
    requires fit { IsFit (D.seen device.old).state.fixed }
    requires log { (D.seen device.old).tells_log ≡ true }
    requires source { (S.seen source.old).tells ≡ true }
    requires later { IsReady (L.seen later.old) }
    requires later_log { (L.seen later.old).tells_log ≡ true }
    requires next { (T.seen next.old).tells ≡ true }
    ensures first { result.0 ≡ Status.Done → ReadsAllowed (D.seen device.old) (D.seen device.new) (S.seen source.old).left (K.seen sink.old) (K.seen sink.new) }
    ensures second { result.1 ≡ Status.Done → IsCounted (D.seen device.new) → IsLeft (D.seen device.old) (D.seen device.new) (L.seen later.old).state.fixed
        → ReadsAllowed (L.seen later.old) (L.seen later.new) (T.seen next.old).left (M.seen report.old) (M.seen report.new) }
{
    crash_reads_a_content();
    let first = serve(alloc, words, source, sink, device);
    let second = serve(alloc, words, next, report, later);
    (first, second)
}
