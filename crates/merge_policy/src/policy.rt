// The interface.
ghost use Rattle.std.specs.Prelude.{◌≡◌};
ghost use Rattle.merge_policy.specs.Meaning.{PolicyMeaning};
ghost use Rattle.merge_policy.specs.Calls.{Bars, IsTold, IsTuned, Picks};

/// A page that may be written now.
#[derive(Clone, Copy, Debug, PartialEq, Eq, Drop)]
pub struct Offer {
    /// The number of the page on the device.
    pub page: u32,
    /// How many idle steps ended since the page became dirty. It stands still at the end of its type.
    pub age: u64,
    /// How many changes of the page were made since it became dirty. It stands still at the end of its type.
    pub edits: u32,
    /// How many pages wait until this one is on the device.
    pub waiters: u32,
}

/// When changed pages are written, while no command asks for it.
///
/// # When it is asked
///
/// Each turn of a session ends with an idle step, and that asks the policy at work:
///
/// 1. It lists the pages that may be written now: those that are dirty and wait for no other page. Each stands in the list once, in
///    rising page number. `pick` is asked with that list, which may be empty.
/// 2. Where `pick` gives a position, the page there is written. Where that succeeded, `wrote` is told the edits of its offer. Then 1
///    comes again with a new list. The page is not in it any more, and a page that waited for it is not in it yet.
/// 3. Where `pick` gives none and some page is hung, that is, was written since the last barrier, `barrier` is asked with the number
///    of hung pages, which is at least 1. On `true` a barrier is made, and 1 comes again. In the list may be now the pages that
///    waited for what was written, and pages that the store changes itself once a barrier is made.
/// 4. Else the step ends. It ends too at a write or a barrier that fails; such a page stays dirty, and nothing is told of it.
///
/// At the end of the step, however it came, the age of each page that is still dirty rises by one.
///
/// `tune` is called by a command, between two idle steps. What a flush writes, or what a command has to write for itself, is not asked
/// for and not told.
///
/// # A policy of your own
///
/// Write a struct, and this trait for it with a label of [`FIRST_OWN`](crate::labels::FIRST_OWN) or more, and hand a box of it over
/// beside the others. It may answer as it likes within these bounds:
///
/// - A picked position is below the number of offers, so an empty list gives none.
/// - The label never changes.
/// - No call takes memory. What a policy needs it has from its maker.
///
/// What it remembers is its own affair. `seen` has to give the label; contracts say nothing of the state behind a label of your own, so
/// the empty list will do. `src/tests/own.rt` shows one.
///
/// No answer can harm the image: a page is only offered once its order allows the write, so a policy decides when a page is written, and
/// never what a crash may leave. It may count on what is said here of the offers for its aims, but not for its safety: no contract
/// promises it anything of the list.
///
/// A policy with a lower label answers as the kind of that label, whoever wrote it: `specs/Kinds.antt` has the answers.
pub trait MergePolicy: Drop {
    /// Its label, and what it remembers.
    ghost seen: { Self → PolicyMeaning };

    /// The label by which it is asked for. Constant time.
    fn label(&self) -> u32
        ensures { result ≡ (seen self.now).label };

    /// Sets the number of the policy, whatever that means for it. Every number is taken.
    fn tune(&mut self, n: u32)
        ensures { IsTuned n (seen self.old) (seen self.new) };

    /// The position of the page that is to be written next, and none where no further one is to be written now.
    fn pick(&mut self, offers: &[Offer]) -> Option<usize>
        ensures { Picks offers.now result (seen self.old) (seen self.new) };

    /// A picked page was written, with so many changes in it.
    fn wrote(&mut self, edits: u32)
        ensures { IsTold edits (seen self.old) (seen self.new) };

    /// Whether a barrier is to be made, where so many pages are hung.
    fn barrier(&mut self, hung: u32) -> bool
        ensures { Bars hung result (seen self.old) (seen self.new) };
}
