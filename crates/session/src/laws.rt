// What a caller of `run` may use of its outcome, by the status. Each function is a law: it does nothing, and
// its contract holds.
ghost use Rattle.std.specs.Prelude.{◌≡◌, ◌⊎◌, ◌≤◌, ℕ, true, List, length};
ghost use Rattle.byte_ports.specs.Source.{SourceMeaning};
ghost use Rattle.byte_ports.specs.Sink.{SinkMeaning, Takes};
ghost use Rattle.page_device.specs.Disk.{newest};
ghost use Rattle.page_device.specs.Meaning.{Meaning};
ghost use Rattle.array_model.specs.Images.{IsFit};
ghost use Rattle.cli_words.specs.Grammar.{Means};
ghost use Rattle.cli_words.specs.declared.jobs.Job.TheVariants as job;
ghost use Rattle.image_check.specs.declared.verdict.Verdict.{Verdict};
ghost use Rattle.session.specs.declared.status.Status.{Status as StatusView};
ghost use Rattle.session.specs.declared.status.Status.TheVariants.{Done, SourceFault, SinkFault, DeviceFault, NotFormatted, Unsound, NoMemory, InputLimit};
ghost use Rattle.session.specs.Statuses.{last_text};
ghost use Rattle.session.specs.Endings.{input_limit};
ghost use Rattle.session.specs.Run.{Outcome, NoneDone};
ghost use Rattle.session.specs.Flat.{DoneSession, Session, EndsOverFit};
ghost use Rattle.session.specs.Stopped.{CutSession, StoppedSession, FailedClose, NotOpened};

/// What the words `trace` with the policy 0 have done.
pub fn session_of_words()
    ensures { (words : List (List ℕ)) (cache : ℕ) (status : StatusView) (d e : Meaning) (source source2 : SourceMeaning) (sink sink2 : SinkMeaning)
        → Outcome words status d e source source2 sink sink2 → Means words (job.Trace cache 0) → Session status d e source source2 sink sink2 }
{}

/// A session that ended with status 0.
pub fn done_session()
    ensures { (d e : Meaning) (source source2 : SourceMeaning) (sink sink2 : SinkMeaning) → Session Done d e source source2 sink sink2 → DoneSession d e source source2 sink sink2 }
{}

/// A session that ended with status 4: the first lines of its input were answered, and the sink has a front of their texts
/// with one last line behind them.
pub fn cut_session()
    ensures { (d e : Meaning) (source source2 : SourceMeaning) (sink sink2 : SinkMeaning) → Session SinkFault d e source source2 sink sink2 → CutSession d e source source2 sink sink2 }
{}

/// A session that ended with status 3, and then the source counted a fault, or 8: the lines that had ended were
/// answered.
pub fn stopped_session()
    ensures source { (d e : Meaning) (source source2 : SourceMeaning) (sink sink2 : SinkMeaning) → Session SourceFault d e source source2 sink sink2 → StoppedSession SourceFault d e source source2 sink sink2 }
    ensures limit { (d e : Meaning) (source source2 : SourceMeaning) (sink sink2 : SinkMeaning) → Session InputLimit d e source source2 sink sink2 → StoppedSession InputLimit d e source source2 sink sink2 }
{}

/// A session that ended with status 5: its image was not opened, or its closing flush failed.
pub fn faulted_session()
    ensures { (d e : Meaning) (source source2 : SourceMeaning) (sink sink2 : SinkMeaning) → Session DeviceFault d e source source2 sink sink2
        → NotOpened DeviceFault d e source source2 sink sink2 ⊎ FailedClose d e source source2 sink sink2 }
{}

/// A session over a fit image: it does not end with the statuses 2 and 6.
pub fn fit_session()
    ensures { (status : StatusView) (d e : Meaning) (source source2 : SourceMeaning) (sink sink2 : SinkMeaning)
        → d.honest ≡ true → d.tells_pages ≡ true → IsFit (newest d.state) → Session status d e source source2 sink sink2 → EndsOverFit status }
{}

/// A session that ended with status 6: its image was refused, and nothing was taken or written.
pub fn refused_session()
    ensures unformatted { (d e : Meaning) (source source2 : SourceMeaning) (sink sink2 : SinkMeaning) → Session NotFormatted d e source source2 sink sink2 → NotOpened NotFormatted d e source source2 sink sink2 }
    ensures unsound { (found : Verdict) (d e : Meaning) (source source2 : SourceMeaning) (sink sink2 : SinkMeaning) → Session (Unsound found) d e source source2 sink sink2 → NotOpened (Unsound found) d e source source2 sink sink2 }
{}

/// A session that ended with status 7: it put the line of want of memory, and no other text; nothing was done, or
/// the image was not opened.
pub fn memory_session()
    ensures done { (d e : Meaning) (source source2 : SourceMeaning) (sink sink2 : SinkMeaning) → Session NoMemory d e source source2 sink sink2
        → NoneDone NoMemory d e source source2 sink sink2 ⊎ NotOpened NoMemory d e source source2 sink sink2 }
    ensures put { (d e : Meaning) (source source2 : SourceMeaning) (sink sink2 : SinkMeaning) → Session NoMemory d e source source2 sink sink2 → Takes (last_text NoMemory) sink sink2 }
{}

/// A session that ended with status 8: the input was not shorter than 2^40 bytes.
pub fn limit_session()
    ensures { (d e : Meaning) (source source2 : SourceMeaning) (sink sink2 : SinkMeaning) → source.tells ≡ true → Session InputLimit d e source source2 sink sink2 → input_limit ≤ length source.left }
{}
