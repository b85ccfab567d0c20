// An image is opened again.
ghost use Rattle.std.specs.Prelude.{◌≡◌, ◌⊎◌, ℕ, ◌≤◌, ◌∷◌, [], true, map, List};
ghost use Rattle.std.specs.String.{string_bytes};
ghost use Rattle.cli_words.specs.Grammar.{Means};
ghost use Rattle.cli_words.specs.declared.jobs.Job.TheVariants as job;
ghost use Rattle.page_device.specs.Block.{numbered_block};
ghost use Rattle.page_device.specs.Disk.{IsImage};
ghost use Rattle.page_device.specs.Gains.{IsLeft};
ghost use Rattle.page_device.specs.Meaning.{IsCounted};
ghost use Rattle.array_model.specs.Images.{IsFit, block_of};
ghost use Rattle.trace_text.specs.declared.reply.Reply.{Reply};
ghost use Rattle.trace_text.specs.declared.reply.Reply.TheVariants as reply;
ghost use Rattle.session.specs.Run.{IsReady};
ghost use Rattle.conclusions.specs.Sentences.{PutsReply, PutsThree};

use crate::words::serve;
use array_model::{contents_stay, start_reads, step_adds_what_is_written, works_end};
use byte_ports::{Sink, Source};
use mount_reader::mount;
use page_device::{Device, Page};
use session::Status;
use std::alloc::Global;
use trace_text::parse;

/// What came of the second opening.
#[derive(Clone, Copy, Debug, PartialEq, Eq, Drop)]
pub enum Read {
    /// The block was read.
    Content,
    /// A call failed, or there was no memory.
    Nothing,
}

/// Block 0 of an image, where it is opened and read.
pub fn read_first<D: Device>(alloc: Global, device: &mut D, into: &mut Page) -> Read
    ensures { result ≡ Read.Content → IsReady (D.seen device.old) → IsFit (D.seen device.old).state.fixed → into.new ≡ block_of (D.seen device.old).state.fixed 0 }
{
    start_reads();
    match mount(alloc, device) {
        Ok(store) => {
            let mut store = store;
            match store.read(device, 0, into) {
                Ok(()) => Read::Content,
                Err(_) => Read::Nothing,
            }
        }
        Err(_) => Read::Nothing,
    }
}

/// `w 0 5` was answered `ok` by a session that ended with status 0. Then whatever a crash or a loss of power
/// leaves is an image whose block 0 reads 5.
pub fn written_is_read_again<S: Source, K: Sink, D: Device, L: Device>(
    alloc: Global,
    words: &[String],
    source: &mut S,
    sink: &mut K,
    device: &mut D,
    later: &mut L,
    into: &mut Page,
) -> (Status, Read)
    requires words { Means (map string_bytes words.now) (job.Trace 512 0) }
    requires device { IsReady (D.seen device.old) }
    requires source { (S.seen source.old).tells ≡ true }
    requires input { (S.seen source.old).left ≡ 119 ∷ 32 ∷ 48 ∷ 32 ∷ 53 ∷ 10 ∷ [] }
    requires sink { (K.seen sink.old).tells ≡ true }
    ensures { result.0 ≡ Status.Done → (answer : Reply) × PutsReply answer (D.seen device.old) (D.seen device.new) (K.seen sink.old) (K.seen sink.new)
        × (answer ≡ reply.Done → IsReady (L.seen later.old) → IsImage (D.seen device.new).state (L.seen later.old).state.fixed → result.1 ≡ Read.Content → into.new ≡ numbered_block 5) }
{
    let _ = parse(b"w 0 5");
    works_end();
    let status = serve(alloc, words, source, sink, device);
    (status, read_first(alloc, later, into))
}

/// `w 0 5`, `f` and `w 0 6` were answered in a session over a fit image that ended with status 0, the first two with
/// `ok`. A crash after so many device calls as the text of the second says, or after more, left the image that is
/// opened again: then block 0 reads 5 or 6.
pub fn flushed_is_read_after_a_crash<S: Source, K: Sink, D: Device, L: Device>(
    alloc: Global,
    words: &[String],
    source: &mut S,
    sink: &mut K,
    device: &mut D,
    later: &mut L,
    into: &mut Page,
) -> (Status, Read)
    requires words { Means (map string_bytes words.now) (job.Trace 512 0) }
    requires device { IsReady (D.seen device.old) }
    requires log { (D.seen device.old).tells_log ≡ true }
    requires source { (S.seen source.old).tells ≡ true }
    requires input { (S.seen source.old).left ≡ 119 ∷ 32 ∷ 48 ∷ 32 ∷ 53 ∷ 10 ∷ 102 ∷ 10 ∷ 119 ∷ 32 ∷ 48 ∷ 32 ∷ 54 ∷ 10 ∷ [] }
    requires sink { (K.seen sink.old).tells ≡ true }
    ensures { result.0 ≡ Status.Done → (p : Reply) × (q : Reply) × (r : Reply) × (second : ℕ) × PutsThree p q r second (K.seen sink.old) (K.seen sink.new)
        × (p ≡ reply.Done → q ≡ reply.Done → IsCounted (D.seen device.new) → IsReady (L.seen later.old) → (left : IsLeft (D.seen device.old) (D.seen device.new) (L.seen later.old).state.fixed) → second ≤ left.k
        → result.1 ≡ Read.Content → (into.new ≡ numbered_block 5) ⊎ (into.new ≡ numbered_block 6)) }
{
    let first = parse(b"w 0 5");
    let flush = parse(b"f");
    let second = parse(b"w 0 6");
    let _ = (first, flush, second);
    contents_stay();
    step_adds_what_is_written();
    let status = serve(alloc, words, source, sink, device);
    (status, read_first(alloc, later, into))
}
