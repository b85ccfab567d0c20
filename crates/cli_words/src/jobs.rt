//! What the words of a command line ask for.

/// A job for an image. Each number is in the range of its option.
#[derive(Clone, Copy, Debug, PartialEq, Eq)]
pub enum Job {
    /// Make an empty image of so many logical blocks and data pages.
    Format {
        blocks: u32,
        pages: u32,
    },
    /// Run the commands that are read, with a cache of so many pages and the policy of this label.
    Trace {
        cache: u32,
        policy: u32,
    },
    /// Run so many commands that are made from a seed.
    Load {
        seed: u32,
        count: u64,
        cache: u32,
        policy: u32,
    },
    /// Say whether the image is sound.
    Check,
    /// Bring the image to the newer version.
    Upgrade,
    /// Find equal blocks that were kept twice.
    Merge,
    /// Serve the image to a client of the NBD protocol.
    Serve {
        cache: u32,
        policy: u32,
    },
    /// Run the commands that are read on the volumes of the image.
    Vtrace {
        cache: u32,
        policy: u32,
    },
}

/// Why words give no job.
#[derive(Clone, Copy, Debug, PartialEq, Eq)]
pub enum WordsError {
    /// The words are not in the grammar.
    Usage,
    /// There was no memory to read them.
    NoMemory,
}
