// Sessions of one line.
ghost use Rattle.std.specs.Prelude.{◌≡◌, ◌+◌, ◌<◌, ◌≤◌, ◌^◌, ◌∷◌, [], true, map, List};
ghost use Rattle.std.specs.String.{string_bytes};
ghost use Rattle.cli_words.specs.Grammar.{Means};
ghost use Rattle.cli_words.specs.declared.jobs.Job.TheVariants as job;
ghost use Rattle.page_device.specs.Disk.{newest};
ghost use Rattle.page_layout.specs.Tables.{shape_of};
ghost use Rattle.dedup_writer.specs.Core.{shape_in};
ghost use Rattle.session.specs.Answers.{Fits};
ghost use Rattle.conclusions.specs.Sentences.{PutsReply};

use crate::words::serve;
use byte_ports::{Sink, Source};
use dedup_writer::Store;
use page_device::Device;
use session::{Status, command};
use std::alloc::Global;
use trace_text::{Reply, parse};

/// `r 4` over an image of four blocks is answered `range`.
pub fn read_past_the_end<S: Source, K: Sink, D: Device>(
    alloc: Global,
    words: &[String],
    source: &mut S,
    sink: &mut K,
    device: &mut D,
) -> Status
    requires words { Means (map string_bytes words.now) (job.Trace 512 0) }
    requires honest { (D.seen device.old).honest ≡ true }
    requires pages { (D.seen device.old).tells_pages ≡ true }
    requires blocks { (shape_of (newest (D.seen device.old).state)).blocks ≡ 4 }
    requires source { (S.seen source.old).tells ≡ true }
    requires input { (S.seen source.old).left ≡ 114 ∷ 32 ∷ 52 ∷ 10 ∷ [] }
    requires sink { (K.seen sink.old).tells ≡ true }
    ensures { result ≡ Status.Done → PutsReply Reply.Range (D.seen device.old) (D.seen device.new) (K.seen sink.old) (K.seen sink.new) }
{
    let _ = parse(b"r 4");
    serve(alloc, words, source, sink, device)
}

/// Where the device counts no fault, `f` is answered `ok`, over whatever device.
pub fn flush_without_fault<S: Source, K: Sink, D: Device>(
    alloc: Global,
    words: &[String],
    source: &mut S,
    sink: &mut K,
    device: &mut D,
) -> Status
    requires words { Means (map string_bytes words.now) (job.Trace 512 0) }
    requires source { (S.seen source.old).tells ≡ true }
    requires input { (S.seen source.old).left ≡ 102 ∷ 10 ∷ [] }
    requires sink { (K.seen sink.old).tells ≡ true }
    ensures { result ≡ Status.Done → (D.seen device.new).faults ≡ (D.seen device.old).faults → (D.seen device.new).faults + 1 < 2 ^ 64
        → PutsReply Reply.Done (D.seen device.old) (D.seen device.new) (K.seen sink.old) (K.seen sink.new) }
{
    let _ = parse(b"f");
    serve(alloc, words, source, sink, device)
}

/// `r 4` over a store of four blocks is answered `range`, over whatever device.
pub fn range_whatever_the_device<D: Device>(store: &mut Store, device: &mut D) -> Reply
    requires room { Fits store.old (D.seen device.old) }
    requires blocks { (shape_in store.old).blocks ≡ 4 }
    ensures { result ≡ Reply.Range }
{
    let _ = parse(b"r 4");
    command(store, device, b"r 4")
}
