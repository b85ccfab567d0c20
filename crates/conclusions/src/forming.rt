// A crash while a device is formatted.
ghost use Rattle.std.specs.Prelude.{◌≡◌, ◌⊎◌, true, map, List};
ghost use Rattle.std.specs.String.{string_bytes};
ghost use Rattle.cli_words.specs.Grammar.{Means};
ghost use Rattle.cli_words.specs.declared.jobs.Job.TheVariants as job;
ghost use Rattle.byte_ports.specs.Fault.{NoneCounted};
ghost use Rattle.byte_ports.specs.Sink.{Takes};
ghost use Rattle.page_device.specs.Counts.{Rises};
ghost use Rattle.page_device.specs.Disk.{IsImage};
ghost use Rattle.page_device.specs.Faults.{IsCalm};
ghost use Rattle.page_device.specs.Meaning.{IsCounted};
ghost use Rattle.trace_text.specs.Texts.{formatted_line, sound_line};
ghost use Rattle.mount_reader.specs.Format.{with_pages};
ghost use Rattle.session.specs.declared.status.Status.TheVariants.{Done, NotFormatted};
ghost use Rattle.session.specs.Statuses.{last_text};
ghost use Rattle.session.specs.Run.{IsReady};
ghost use Rattle.conclusions.specs.Sentences.{IsLeftInFormat, LeavesPartway, TellsOf};

use array_model::images_weaken;
use byte_ports::{Sink, Source};
use page_device::Device;
use session::{Status, formatted_device, formatting_of_words, run};
use std::alloc::Global;

/// Formatting that ended with status 0 over whatever device, one that tells nothing of itself too: the device counted
/// the eight writes and barriers of a formatting of four blocks and four data pages, no more and no fewer, and the line
/// was put.
pub fn formatted_by_its_calls<S: Source, K: Sink, D: Device>(
    alloc: Global,
    making: &[String],
    source: &mut S,
    sink: &mut K,
    device: &mut D,
) -> Status
    requires making { Means (map string_bytes making.now) (job.Format 4 4) }
    ensures { result ≡ Status.Done → Rises 8 (D.seen device.old).calls (D.seen device.new).calls × Takes (formatted_line 4 4) (K.seen sink.old) (K.seen sink.new) }
{
    formatting_of_words();
    formatted_device();
    run(alloc, making, source, sink, device)
}

/// Whichever calls fail and however the formatting ends: a crash after any number of the device calls leaves an
/// image of what was there, page 0 of zeros, or the new image, and the data pages are old ones.
pub fn crash_within_format<S: Source, K: Sink, D: Device>(
    alloc: Global,
    making: &[String],
    source: &mut S,
    sink: &mut K,
    device: &mut D,
) -> Status
    requires making { Means (map string_bytes making.now) (job.Format 4 4) }
    requires honest { (D.seen device.old).honest ≡ true }
    requires pages { (D.seen device.old).tells_pages ≡ true }
    requires log { (D.seen device.old).tells_log ≡ true }
    ensures { IsCounted (D.seen device.new) → LeavesPartway (D.seen device.old) (D.seen device.new) }
{
    run(alloc, making, source, sink, device)
}

/// A crash within the formatting left the image that is checked then, with no further fault. It is an image of what
/// was there; or the check says that it is not formatted, by the status 6; or that it is sound, with no waste. Where
/// it is none of what was there, there may have been no memory, which is said.
pub fn check_after_a_crash<S: Source, K: Sink, M: Sink, D: Device, L: Device>(
    alloc: Global,
    making: &[String],
    checking: &[String],
    source: &mut S,
    sink: &mut K,
    report: &mut M,
    device: &mut D,
    later: &mut L,
) -> (Status, Status)
    requires making { Means (map string_bytes making.now) (job.Format 4 4) }
    requires checking { Means (map string_bytes checking.now) job.Check }
    requires honest { (D.seen device.old).honest ≡ true }
    requires pages { (D.seen device.old).tells_pages ≡ true }
    requires log { (D.seen device.old).tells_log ≡ true }
    requires later { IsReady (L.seen later.old) }
    requires report { (M.seen report.old).tells ≡ true }
    ensures { IsCounted (D.seen device.new) → IsLeftInFormat (D.seen device.old) (D.seen device.new) (L.seen later.old).state.fixed
        → IsCalm (L.seen later.old) (L.seen later.new) → NoneCounted (M.seen report.old).faults (M.seen report.new).faults
        → IsImage (with_pages (D.seen device.old) (D.seen device.new).pages).state (L.seen later.old).state.fixed
        ⊎ TellsOf NotFormatted (last_text NotFormatted) result.1 (M.seen report.old) (M.seen report.new)
        ⊎ TellsOf Done (sound_line 0) result.1 (M.seen report.old) (M.seen report.new) }
{
    images_weaken();
    let first = run(alloc, making, source, sink, device);
    let second = run(alloc, checking, source, report, later);
    (first, second)
}
