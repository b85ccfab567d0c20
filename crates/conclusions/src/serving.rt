// The calls below the program: one turn, and a session over a store.
ghost use Rattle.std.specs.Prelude.{◌≡◌, ◌⊎◌, ◌+◌, ◌++◌, true, IfOk, length};
ghost use Rattle.page_device.specs.Meaning.{FaultRose};
ghost use Rattle.trace_text.specs.Texts.{text_of};
ghost use Rattle.array_model.specs.Turns.{lines_in};
ghost use Rattle.dedup_writer.specs.Core.{calls_in};
ghost use Rattle.session.specs.Answers.{Fits};
ghost use Rattle.conclusions.specs.Sentences.{PutsTexts};

use byte_ports::{Sink, Source};
use dedup_writer::Store;
use page_device::{Device, Failed};
use session::{Status, serve_trace, turn};
use trace_text::{Reply, parse};

/// One turn of the line `f`, over whatever device: where its text was put whole, it says the number of device
/// calls of the store and `ok`, or `fault`; and `fault` only where the device counted one.
pub fn turn_of_a_flush<K: Sink, D: Device>(
    store: &mut Store,
    device: &mut D,
    sink: &mut K,
) -> Result<(), Failed>
    requires room { Fits store.old (D.seen device.old) }
    requires sink { (K.seen sink.old).tells ≡ true }
    ensures { IfOk result (λ _. ((K.seen sink.new).held ≡ (K.seen sink.old).held ++ text_of (calls_in store.new) Reply.Done)
        ⊎ (((K.seen sink.new).held ≡ (K.seen sink.old).held ++ text_of (calls_in store.new) Reply.Fault) × FaultRose (D.seen device.old) (D.seen device.new))) }
{
    let _ = parse(b"f");
    turn(store, device, b"f", sink)
}

/// A session over a store that ends with status 0 has put one text for each line of its input, over whatever
/// device.
pub fn one_text_a_line_of_a_store<S: Source, K: Sink, D: Device>(
    store: &mut Store,
    device: &mut D,
    source: &mut S,
    sink: &mut K,
) -> Status
    requires room { Fits store.old (D.seen device.old) }
    requires source { (S.seen source.old).tells ≡ true }
    requires sink { (K.seen sink.old).tells ≡ true }
    ensures { result ≡ Status.Done → PutsTexts (length (lines_in (S.seen source.old).left)) (K.seen sink.old).held (K.seen sink.new).held }
{
    serve_trace(store, device, source, sink)
}

/// Two sessions over a store, one after the other, over whatever device: where both end with status 0, the sink took one
/// text for each line of the first input, and then one for each line of the second.
pub fn two_sessions_of_a_store<S: Source, K: Sink, D: Device>(
    store: &mut Store,
    device: &mut D,
    first: &mut S,
    second: &mut S,
    sink: &mut K,
) -> (Status, Status)
    requires room { Fits store.old (D.seen device.old) }
    requires first { (S.seen first.old).tells ≡ true }
    requires second { (S.seen second.old).tells ≡ true }
    requires sink { (K.seen sink.old).tells ≡ true }
    ensures { result.0 ≡ Status.Done → result.1 ≡ Status.Done
        → PutsTexts (length (lines_in (S.seen first.old).left) + length (lines_in (S.seen second.old).left)) (K.seen sink.old).held (K.seen sink.new).held }
{
    let one = serve_trace(store, device, first, sink);
    let two = serve_trace(store, device, second, sink);
    (one, two)
}
