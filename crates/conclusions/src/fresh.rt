// A new image.
ghost use Rattle.std.specs.Prelude.{◌≡◌, ◌⊎◌, ℕ, ◌+◌, ◌<◌, ◌^◌, ◌++◌, ◌∷◌, [], true, map, List};
ghost use Rattle.std.specs.String.{string_bytes};
ghost use Rattle.byte_ports.specs.Fault.{NoneCounted};
ghost use Rattle.cli_words.specs.Grammar.{Means};
ghost use Rattle.cli_words.specs.declared.jobs.Job.TheVariants as job;
ghost use Rattle.page_device.specs.Block.{numbered_block, zero_block};
ghost use Rattle.page_device.specs.Faults.{IsCalm};
ghost use Rattle.trace_text.specs.declared.reply.Reply.TheVariants as reply;
ghost use Rattle.trace_text.specs.Texts.{text_of, formatted_line, sound_line};
ghost use Rattle.mount_reader.specs.Format.{IsNew};
ghost use Rattle.session.specs.declared.status.Status.TheVariants.{NoMemory};
ghost use Rattle.session.specs.Statuses.{last_text};
ghost use Rattle.session.specs.Run.{IsReady, new_shape};
ghost use Rattle.conclusions.specs.Sentences.{PutsTwo};

use crate::words::serve;
use array_model::{images_weaken, works_end};
use byte_ports::{Sink, Source};
use page_device::Device;
use session::{Status, fit_session, limit_session, memory_session, run};
use std::alloc::Global;
use trace_text::parse;

/// `w 0 5` and `r 0` over a new image of four blocks, where the device, the source and the sink count no fault:
/// the first is answered `ok` and the second gives 5, with the numbers of log entries at the ends of the two
/// turns, and the status is 0; or there was no memory, which is said, and the status is 7.
pub fn written_block_is_read<S: Source, K: Sink, D: Device>(
    alloc: Global,
    words: &[String],
    source: &mut S,
    sink: &mut K,
    device: &mut D,
) -> Status
    requires words { Means (map string_bytes words.now) (job.Trace 512 0) }
    requires device { IsReady (D.seen device.old) }
    requires image { IsNew (new_shape 4 4) (D.seen device.old).state.fixed }
    requires source { (S.seen source.old).tells ≡ true }
    requires input { (S.seen source.old).left ≡ 119 ∷ 32 ∷ 48 ∷ 32 ∷ 53 ∷ 10 ∷ 114 ∷ 32 ∷ 48 ∷ 10 ∷ [] }
    requires sink { (K.seen sink.old).tells ≡ true }
    ensures { NoneCounted (S.seen source.old).faults (S.seen source.new).faults → NoneCounted (K.seen sink.old).faults (K.seen sink.new).faults → IsCalm (D.seen device.old) (D.seen device.new)
        → ((result ≡ Status.Done) × PutsTwo reply.Done (reply.Bytes (numbered_block 5)) (D.seen device.old) (D.seen device.new) (K.seen sink.old) (K.seen sink.new))
        ⊎ ((result ≡ Status.NoMemory) × ((K.seen sink.new).held ≡ (K.seen sink.old).held ++ last_text NoMemory)) }
{
    let write = parse(b"w 0 5");
    let read = parse(b"r 0");
    let _ = (write, read);
    images_weaken();
    fit_session();
    limit_session();
    memory_session();
    serve(alloc, words, source, sink, device)
}

/// A device is formatted, and `r 0` is asked in a session over it. Where both end with status 0 and no fault was
/// ever counted, the sink gained the line of the new image, and zeros.
pub fn new_image_reads_zeros<S: Source, K: Sink, D: Device>(
    alloc: Global,
    making: &[String],
    words: &[String],
    source: &mut S,
    sink: &mut K,
    device: &mut D,
) -> (Status, Status)
    requires making { Means (map string_bytes making.now) (job.Format 4 4) }
    requires words { Means (map string_bytes words.now) (job.Trace 512 0) }
    requires honest { (D.seen device.old).honest ≡ true }
    requires pages { (D.seen device.old).tells_pages ≡ true }
    requires source { (S.seen source.old).tells ≡ true }
    requires input { (S.seen source.old).left ≡ 114 ∷ 32 ∷ 48 ∷ 10 ∷ [] }
    requires sink { (K.seen sink.old).tells ≡ true }
    ensures { result.0 ≡ Status.Done → result.1 ≡ Status.Done → (D.seen device.new).faults ≡ 0
        → (at : ℕ) × ((K.seen sink.new).held ≡ (K.seen sink.old).held ++ formatted_line 4 4 ++ text_of at (reply.Bytes zero_block)) }
{
    let _ = parse(b"r 0");
    works_end();
    let first = run(alloc, making, source, sink, device);
    let second = serve(alloc, words, source, sink, device);
    (first, second)
}

/// A device is formatted and then checked. Where both end with status 0, the sink gained the line of the new image,
/// and the line that it is sound, with no waste.
pub fn new_image_is_sound<S: Source, K: Sink, D: Device>(
    alloc: Global,
    making: &[String],
    checking: &[String],
    source: &mut S,
    sink: &mut K,
    device: &mut D,
) -> (Status, Status)
    requires making { Means (map string_bytes making.now) (job.Format 4 4) }
    requires checking { Means (map string_bytes checking.now) job.Check }
    requires honest { (D.seen device.old).honest ≡ true }
    requires pages { (D.seen device.old).tells_pages ≡ true }
    requires sink { (K.seen sink.old).tells ≡ true }
    ensures { result.0 ≡ Status.Done → result.1 ≡ Status.Done → (K.seen sink.new).held ≡ (K.seen sink.old).held ++ formatted_line 4 4 ++ sound_line 0 }
{
    let first = run(alloc, making, source, sink, device);
    let second = run(alloc, checking, source, sink, device);
    (first, second)
}
