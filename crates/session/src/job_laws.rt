// What a caller of `run` may use of the outcome of words that are no session, by the status. Each function is a
// law: it does nothing, and its contract holds.
ghost use Rattle.std.specs.Prelude.{◌≡◌, ◌⊎◌, ℕ, List};
ghost use Rattle.byte_ports.specs.Source.{SourceMeaning};
ghost use Rattle.byte_ports.specs.Sink.{SinkMeaning};
ghost use Rattle.page_device.specs.Meaning.{Meaning};
ghost use Rattle.page_layout.specs.Shape.{ShapeView};
ghost use Rattle.cli_words.specs.Grammar.{Means};
ghost use Rattle.cli_words.specs.declared.jobs.Job.{Job};
ghost use Rattle.cli_words.specs.declared.jobs.Job.TheVariants as job;
ghost use Rattle.image_check.specs.declared.verdict.Verdict.{Verdict};
ghost use Rattle.image_check.specs.declared.verdict.Verdict.TheVariants.{Sound};
ghost use Rattle.session.specs.declared.status.Status.{Status as StatusView};
ghost use Rattle.session.specs.declared.status.Status.TheVariants.{Done, SinkFault, DeviceFault, NotFormatted, Unsound, NoMemory};
ghost use Rattle.session.specs.Run.{Outcome, IsOther, new_shape};
ghost use Rattle.session.specs.Jobs.{Formatting, Checking, FormattedDevice, FailedFormat, CutFormat, CheckedImage, UncheckedImage, CutCheck, NothingDone, RefusedWords};

/// What the words `format` have done.
pub fn formatting_of_words()
    ensures { (words : List (List ℕ)) (blocks pages : ℕ) (status : StatusView) (d e : Meaning) (source source2 : SourceMeaning) (sink sink2 : SinkMeaning)
        → Outcome words status d e source source2 sink sink2 → Means words (job.Format blocks pages) → Formatting (new_shape blocks pages) status d e source source2 sink sink2 }
{}

/// Formatting that ended with the statuses 0, 5, 4 and 7. It ends with no other.
pub fn formatted_device()
    ensures done { (shape : ShapeView) (d e : Meaning) (source source2 : SourceMeaning) (sink sink2 : SinkMeaning) → Formatting shape Done d e source source2 sink sink2 → FormattedDevice shape d e source source2 sink sink2 }
    ensures failed { (shape : ShapeView) (d e : Meaning) (source source2 : SourceMeaning) (sink sink2 : SinkMeaning) → Formatting shape DeviceFault d e source source2 sink sink2 → FailedFormat shape d e source source2 sink sink2 }
    ensures cut { (shape : ShapeView) (d e : Meaning) (source source2 : SourceMeaning) (sink sink2 : SinkMeaning) → Formatting shape SinkFault d e source source2 sink sink2 → CutFormat shape d e source source2 sink sink2 }
    ensures memory { (shape : ShapeView) (d e : Meaning) (source source2 : SourceMeaning) (sink sink2 : SinkMeaning) → Formatting shape NoMemory d e source source2 sink sink2 → NothingDone d e source source2 sink sink2 }
    ensures ends_as { (shape : ShapeView) (status : StatusView) (d e : Meaning) (source source2 : SourceMeaning) (sink sink2 : SinkMeaning) → Formatting shape status d e source source2 sink sink2
        → (status ≡ Done) ⊎ (status ≡ DeviceFault) ⊎ (status ≡ SinkFault) ⊎ (status ≡ NoMemory) }
{}

/// What the word `check` has done.
pub fn check_of_words()
    ensures { (words : List (List ℕ)) (status : StatusView) (d e : Meaning) (source source2 : SourceMeaning) (sink sink2 : SinkMeaning)
        → Outcome words status d e source source2 sink sink2 → Means words job.Check → Checking status d e source source2 sink sink2 }
{}

/// A check that ended with status 0, and with status 6 for what it found.
pub fn checked_image()
    ensures sound { (d e : Meaning) (source source2 : SourceMeaning) (sink sink2 : SinkMeaning) → Checking Done d e source source2 sink sink2 → (waste : ℕ) × CheckedImage (Sound waste) d e source source2 sink sink2 }
    ensures unsound { (found : Verdict) (d e : Meaning) (source source2 : SourceMeaning) (sink sink2 : SinkMeaning) → Checking (Unsound found) d e source source2 sink sink2 → CheckedImage found d e source source2 sink sink2 }
{}

/// A check that could not be made, or whose line could not be put whole: it ended with status 5, 6, 7 or 4.
pub fn unchecked_image()
    ensures device { (d e : Meaning) (source source2 : SourceMeaning) (sink sink2 : SinkMeaning) → Checking DeviceFault d e source source2 sink sink2 → UncheckedImage DeviceFault d e source source2 sink sink2 }
    ensures unformatted { (d e : Meaning) (source source2 : SourceMeaning) (sink sink2 : SinkMeaning) → Checking NotFormatted d e source source2 sink sink2 → UncheckedImage NotFormatted d e source source2 sink sink2 }
    ensures memory { (d e : Meaning) (source source2 : SourceMeaning) (sink sink2 : SinkMeaning) → Checking NoMemory d e source source2 sink sink2
        → NothingDone d e source source2 sink sink2 ⊎ UncheckedImage NoMemory d e source source2 sink sink2 }
    ensures cut { (d e : Meaning) (source source2 : SourceMeaning) (sink sink2 : SinkMeaning) → Checking SinkFault d e source source2 sink sink2 → CutCheck d e source source2 sink sink2 }
{}

/// Words that mean no job, or a job that is not built.
pub fn refused_words()
    ensures meaningless { (words : List (List ℕ)) (status : StatusView) (d e : Meaning) (source source2 : SourceMeaning) (sink sink2 : SinkMeaning)
        → Outcome words status d e source source2 sink sink2 → ((j : Job) → ¬ Means words j) → RefusedWords status d e source source2 sink sink2 }
    ensures unbuilt { (words : List (List ℕ)) (j : Job) (status : StatusView) (d e : Meaning) (source source2 : SourceMeaning) (sink sink2 : SinkMeaning)
        → Outcome words status d e source source2 sink sink2 → Means words j → IsOther j → RefusedWords status d e source source2 sink sink2 }
{}
