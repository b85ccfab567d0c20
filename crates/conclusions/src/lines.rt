// Lines and texts.
ghost use Rattle.std.specs.Prelude.{◌≡◌, ◌++◌, true, map, List, length, ℕ};
ghost use Rattle.std.specs.String.{string_bytes};
ghost use Rattle.cli_words.specs.Grammar.{Means};
ghost use Rattle.cli_words.specs.declared.jobs.Job.TheVariants as job;
ghost use Rattle.array_model.specs.Turns.{lines_in};
ghost use Rattle.conclusions.specs.Sentences.{PutsTexts, PutsFront};

use crate::words::serve;
use byte_ports::{Sink, Source};
use page_device::Device;
use session::Status;
use std::alloc::Global;

/// A session that ends with status 0 has put one text for each line of its input, over whatever device.
pub fn one_text_a_line<S: Source, K: Sink, D: Device>(
    alloc: Global,
    words: &[String],
    source: &mut S,
    sink: &mut K,
    device: &mut D,
) -> Status
    requires words { Means (map string_bytes words.now) (job.Trace 512 0) }
    requires source { (S.seen source.old).tells ≡ true }
    requires sink { (K.seen sink.old).tells ≡ true }
    ensures { result ≡ Status.Done → PutsTexts (length (lines_in (S.seen source.old).left)) (K.seen sink.old).held (K.seen sink.new).held }
{
    serve(alloc, words, source, sink, device)
}

/// A session that ends with status 4, since its sink failed, at whatever byte: what the sink took is a front of one text
/// for each of the first lines of its input with one last line behind them, and no other byte.
pub fn cut_texts<S: Source, K: Sink, D: Device>(
    alloc: Global,
    words: &[String],
    source: &mut S,
    sink: &mut K,
    device: &mut D,
) -> Status
    requires words { Means (map string_bytes words.now) (job.Trace 512 0) }
    requires sink { (K.seen sink.old).tells ≡ true }
    ensures { result ≡ Status.SinkFault → PutsFront (S.seen source.old) (K.seen sink.old).held (K.seen sink.new).held }
{
    serve(alloc, words, source, sink, device)
}
