// An open file as a device needs it, and how a path becomes one.
ghost use Rattle.std.specs.Prelude.{◌≡◌};

use std::fs::{File, OpenFile, OpenOptions, TryLockError};
use std::io::ErrorKind;
use std::os::unix::fs::FileExt;
use std::path::Path;
use std::rt::Files;
use std::{fs, io};

/// An open file whose pages are read and written at their places, and which one process can have alone. std's trait
/// of an open file has none of these.
pub trait PageFile: OpenFile {
    /// Fills the piece with the bytes from this place on. No clause says with which.
    fn read_page_at(&self, into: &mut [u8], place: u64) -> io::Result<()>;

    /// Writes the whole piece from this place on. No clause says that it is there then.
    fn write_page_at(&self, from: &[u8], place: u64) -> io::Result<()>;

    /// Takes the exclusive lock of the file, which falls when the file is closed. Does not wait for it. No clause says
    /// that no other process has it.
    fn lock_alone(&self) -> Result<(), TryLockError>;
}

impl PageFile for File {
    fn read_page_at(&self, into: &mut [u8], place: u64) -> io::Result<()> {
        self.read_exact_at(into, place)
    }

    fn write_page_at(&self, from: &[u8], place: u64) -> io::Result<()> {
        self.write_all_at(from, place)
    }

    fn lock_alone(&self) -> Result<(), TryLockError> {
        self.try_lock()
    }
}

/// A file that was opened, and what of it is not as it is to be.
#[derive(Drop)]
pub struct Opened<F: Drop> {
    pub file: F,
    /// Why it can't be written, where it can only be read.
    pub unwritable: Option<io::Error>,
}

/// Opens what is there, to read and to write it, or to read it alone where that is all that the system lets us.
pub fn open_there<R: Files>(rt: &R, path: &str) -> io::Result<Opened<R::File>> {
    let why = match OpenOptions::new().read(true).write(true).open(rt, path) {
        Ok(file) => {
            return Ok(Opened {
                file,
                unwritable: None,
            });
        }
        Err(why) => why,
    };
    match why.kind() {
        ErrorKind::PermissionDenied | ErrorKind::ReadOnlyFilesystem => {}
        _ => return Err(why),
    }
    match fs::open(rt, path) {
        Ok(file) => Ok(Opened {
            file,
            unwritable: Some(why),
        }),
        Err(_) => Err(why),
    }
}

/// Makes a new file, where there is none.
pub fn make_new<R: Files>(rt: &R, path: &str) -> io::Result<Opened<R::File>> {
    let file = File::create_new(rt, path)?;
    Ok(Opened {
        file,
        unwritable: None,
    })
}

// The folder in which a path stands.
fn folder_of(path: &str) -> &str {
    match Path::new(path).parent() {
        Some(folder) if !folder.as_str().is_empty() => folder.as_str(),
        _ => ".",
    }
}

/// Fixes the name of a file in its folder.
pub fn sync_folder<R: Files>(rt: &R, path: &str) -> io::Result<()> {
    let folder = fs::open(rt, folder_of(path))?;
    folder.sync_all()
}

/// Locks the file. Gives why it has no lock, where its system has none; an error where another process has it.
pub fn lock<F: PageFile>(file: &F) -> io::Result<Option<io::Error>> {
    match file.lock_alone() {
        Ok(()) => Ok(None),
        Err(TryLockError::WouldBlock) => Err(io::Error::new(
            ErrorKind::ResourceBusy,
            "the image is in use",
        )),
        Err(TryLockError::Error(why)) => Ok(Some(why)),
    }
}
