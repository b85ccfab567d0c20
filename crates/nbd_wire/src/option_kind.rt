// What an option asks for.
ghost use Rattle.std.specs.Prelude.{◌≡◌, IfSome};
ghost use Rattle.nbd_wire.specs.Kinds.{option_number};

/// What an option asks for.
#[derive(Clone, Copy, Debug, PartialEq, Eq, Drop)]
pub enum OptionKind {
    /// `NBD_OPT_EXPORT_NAME`: the transmission of an export, in the oldest way, which knows no error.
    ExportName,
    /// `NBD_OPT_ABORT`: the client leaves.
    Abort,
    /// `NBD_OPT_LIST`: the names of all exports.
    ListExports,
    /// `NBD_OPT_INFO`: what an export is like.
    Info,
    /// `NBD_OPT_GO`: what an export is like, and then its transmission.
    Go,
}

impl OptionKind {
    /// The number that stands in an option.
    pub fn number(self) -> u32
        ensures { result ≡ option_number self }
    {
        match self {
            OptionKind::ExportName => 1,
            OptionKind::Abort => 2,
            OptionKind::ListExports => 3,
            OptionKind::Info => 6,
            OptionKind::Go => 7,
        }
    }

    /// The kind with this number, and none where it is of no kind that is served.
    pub fn of_number(number: u32) -> Option<OptionKind>
        ensures found { IfSome result (λ kind. option_number kind ≡ number) }
        ensures each { (kind : OptionKind) → option_number kind ≡ number → result ≡ Some kind }
    {
        match number {
            1 => Some(OptionKind::ExportName),
            2 => Some(OptionKind::Abort),
            3 => Some(OptionKind::ListExports),
            6 => Some(OptionKind::Info),
            7 => Some(OptionKind::Go),
            _ => None,
        }
    }
}
