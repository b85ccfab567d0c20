// What a request asks for.
ghost use Rattle.std.specs.Prelude.{◌≡◌, IfSome};
ghost use Rattle.nbd_wire.specs.Kinds.{request_number};

/// What a request asks for.
#[derive(Clone, Copy, Debug, PartialEq, Eq, Drop)]
pub enum RequestKind {
    /// `NBD_CMD_READ`.
    Read,
    /// `NBD_CMD_WRITE`: the bytes follow.
    Write,
    /// `NBD_CMD_DISC`: the client leaves.
    Disconnect,
    /// `NBD_CMD_FLUSH`: what was answered before is to be on stable storage.
    Flush,
    /// `NBD_CMD_TRIM`: the bytes are not needed any more.
    Trim,
}

impl RequestKind {
    /// The number that stands in a request.
    pub fn number(self) -> u16
        ensures { result ≡ request_number self }
    {
        match self {
            RequestKind::Read => 0,
            RequestKind::Write => 1,
            RequestKind::Disconnect => 2,
            RequestKind::Flush => 3,
            RequestKind::Trim => 4,
        }
    }

    /// The kind with this number, and none where it is of no kind that is served.
    pub fn of_number(number: u16) -> Option<RequestKind>
        ensures found { IfSome result (λ kind. request_number kind ≡ number) }
        ensures each { (kind : RequestKind) → request_number kind ≡ number → result ≡ Some kind }
    {
        match number {
            0 => Some(RequestKind::Read),
            1 => Some(RequestKind::Write),
            2 => Some(RequestKind::Disconnect),
            3 => Some(RequestKind::Flush),
            4 => Some(RequestKind::Trim),
            _ => None,
        }
    }
}
