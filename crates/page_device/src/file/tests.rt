// A file that the device has for itself, one that others change, and files that it can't use.

use super::FileDevice;
use crate::tests::{got, put};
use crate::{Device, Failed, PageFile};
use std::alloc::{Allocator, Global};
use std::fs::{Metadata, OpenFile, OpenOptions, TryLockError};
use std::io::{ErrorKind, Read, Seek, SeekFrom, Write};
use std::rt::Files;
use std::test::Fail;
use std::{fs, io};

// What is done to the device, or behind its back.
#[derive(Clone, Copy, Drop)]
enum Step {
    Room(u32),
    Put(u32, u64),
    Got(u32),
    Flush,
    // The device is made anew.
    Anew,
    // The file is made so many bytes long.
    Length(u64),
}

// What a step answers, 0 where it gives no byte, and the pages and the faults after it.
type Answer = (Result<u8, Failed>, u32, u64);

// A file that is not there at first.
const OWN_FILE: [(Step, Answer); 19] = [
    (Step::Room(0), (Ok(0), 0, 0)),
    (Step::Flush, (Err(Failed), 0, 1)),
    (Step::Room(2), (Ok(0), 2, 1)),
    (Step::Room(0), (Ok(0), 2, 1)),
    (Step::Got(1), (Ok(0), 2, 1)),
    (Step::Put(1, 9), (Ok(0), 2, 1)),
    (Step::Flush, (Ok(0), 2, 1)),
    (Step::Room(1), (Ok(0), 2, 1)),
    (Step::Room(3), (Ok(0), 3, 1)),
    (Step::Got(1), (Ok(9), 3, 1)),
    (Step::Got(2), (Ok(0), 3, 1)),
    (Step::Put(2, u64::MAX), (Ok(0), 3, 1)),
    (Step::Anew, (Ok(0), 0, 0)),
    (Step::Flush, (Err(Failed), 0, 1)),
    (Step::Room(0), (Ok(0), 3, 1)),
    (Step::Got(0), (Ok(0), 3, 1)),
    (Step::Got(1), (Ok(9), 3, 1)),
    (Step::Got(2), (Ok(255), 3, 1)),
    (Step::Flush, (Ok(0), 3, 1)),
];

// A file whose length others change: it becomes shorter, longer, and no number of whole pages.
const SHARED_FILE: [(Step, Answer); 19] = [
    (Step::Room(3), (Ok(0), 3, 0)),
    (Step::Put(1, u64::MAX), (Ok(0), 3, 0)),
    (Step::Length(8192), (Ok(0), 3, 0)),
    (Step::Got(2), (Err(Failed), 3, 1)),
    (Step::Room(0), (Err(Failed), 3, 2)),
    (Step::Room(4), (Err(Failed), 3, 3)),
    (Step::Got(1), (Ok(255), 3, 3)),
    (Step::Anew, (Ok(0), 0, 0)),
    (Step::Room(0), (Ok(0), 2, 0)),
    (Step::Length(20479), (Ok(0), 2, 0)),
    (Step::Room(0), (Ok(0), 4, 0)),
    (Step::Length(4104), (Ok(0), 4, 0)),
    (Step::Got(1), (Err(Failed), 4, 1)),
    (Step::Anew, (Ok(0), 0, 0)),
    (Step::Room(1), (Ok(0), 1, 0)),
    (Step::Room(2), (Ok(0), 2, 0)),
    (Step::Got(1), (Ok(0), 2, 0)),
    (Step::Room(0), (Ok(0), 2, 0)),
    (Step::Flush, (Ok(0), 2, 0)),
];

// A file of one page that may only be read.
const READ_ONLY_FILE: [(Step, Answer); 6] = [
    (Step::Room(0), (Ok(0), 1, 0)),
    (Step::Put(0, 5), (Err(Failed), 1, 1)),
    (Step::Room(2), (Err(Failed), 1, 2)),
    (Step::Got(0), (Ok(0), 1, 2)),
    (Step::Room(1), (Ok(0), 1, 2)),
    (Step::Flush, (Ok(0), 1, 2)),
];

// A file that another device has open.
const FILE_IN_USE: [(Step, Answer); 4] = [
    (Step::Room(0), (Err(Failed), 0, 1)),
    (Step::Room(3), (Err(Failed), 0, 2)),
    (Step::Flush, (Err(Failed), 0, 3)),
    (Step::Room(1), (Err(Failed), 0, 4)),
];

// A new file whose folder can't be fixed.
const UNNAMED_FILE: [(Step, Answer); 4] = [
    (Step::Room(0), (Ok(0), 0, 0)),
    (Step::Room(1), (Err(Failed), 0, 1)),
    (Step::Room(0), (Err(Failed), 0, 2)),
    (Step::Room(1), (Err(Failed), 0, 3)),
];

// A file of which only one page can be fixed: a sync fails at the opening, of a new page, and at a barrier.
const UNSYNCED_FILE: [(Step, Answer); 22] = [
    (Step::Length(8192), (Ok(0), 0, 0)),
    (Step::Room(0), (Err(Failed), 0, 1)),
    (Step::Length(4096), (Ok(0), 0, 1)),
    (Step::Room(0), (Err(Failed), 0, 2)),
    (Step::Flush, (Err(Failed), 0, 3)),
    (Step::Anew, (Ok(0), 0, 0)),
    (Step::Room(1), (Ok(0), 1, 0)),
    (Step::Put(0, 7), (Ok(0), 1, 0)),
    (Step::Flush, (Ok(0), 1, 0)),
    (Step::Room(2), (Err(Failed), 1, 1)),
    (Step::Length(4096), (Ok(0), 1, 1)),
    (Step::Room(0), (Err(Failed), 1, 2)),
    (Step::Got(0), (Err(Failed), 1, 3)),
    (Step::Anew, (Ok(0), 0, 0)),
    (Step::Room(0), (Ok(0), 1, 0)),
    (Step::Got(0), (Ok(7), 1, 0)),
    (Step::Length(8192), (Ok(0), 1, 0)),
    (Step::Flush, (Err(Failed), 1, 1)),
    (Step::Length(4096), (Ok(0), 1, 1)),
    (Step::Flush, (Err(Failed), 1, 2)),
    (Step::Put(0, 8), (Err(Failed), 1, 3)),
    (Step::Got(0), (Err(Failed), 1, 4)),
];

// A folder, which does not open.
const FOLDER: [(Step, Answer); 3] = [
    (Step::Room(0), (Err(Failed), 0, 1)),
    (Step::Flush, (Err(Failed), 0, 2)),
    (Step::Room(1), (Err(Failed), 0, 3)),
];

// Paths at which no file can be made: in a missing folder, and none at all.
const UNMADE: [(Step, Answer); 3] = [
    (Step::Room(0), (Ok(0), 0, 0)),
    (Step::Flush, (Err(Failed), 0, 1)),
    (Step::Room(1), (Err(Failed), 0, 2)),
];

// What is wrong with the files of a system.
#[derive(Clone, Copy, Drop)]
enum Trouble {
    // They may only be read.
    ReadOnly,
    // Of a longer file a sync fails.
    SyncsAtMost(u64),
    // Of a folder a sync fails.
    NoFolders,
}

// A system whose files have some trouble.
#[derive(Drop)]
struct Troubled<'r, R: Files> {
    files: &'r R,
    trouble: Trouble,
}

#[derive(Drop)]
struct TroubledFile<F: Read + Write + Seek + OpenFile + Drop> {
    file: F,
    trouble: Trouble,
}

impl<F: Read + Write + Seek + OpenFile + Drop> Read for TroubledFile<F> {
    fn read(&mut self, into: &mut [u8]) -> io::Result<usize> {
        self.file.read(into)
    }
}

impl<F: Read + Write + Seek + OpenFile + Drop> Write for TroubledFile<F> {
    fn write(&mut self, from: &[u8]) -> io::Result<usize> {
        self.file.write(from)
    }

    fn flush(&mut self) -> io::Result<()> {
        self.file.flush()
    }
}

impl<F: Read + Write + Seek + OpenFile + Drop> Seek for TroubledFile<F> {
    fn seek(&mut self, to: SeekFrom) -> io::Result<u64> {
        self.file.seek(to)
    }
}

impl<F: Read + Write + Seek + OpenFile + Drop> OpenFile for TroubledFile<F> {
    fn metadata(&self) -> io::Result<Metadata> {
        self.file.metadata()
    }

    fn set_len(&self, size: u64) -> io::Result<()> {
        self.file.set_len(size)
    }

    fn sync_all(&self) -> io::Result<()> {
        match self.trouble {
            Trouble::SyncsAtMost(bytes) if self.file.metadata()?.len() > bytes => {
                Err(io::Error::from(ErrorKind::Other))
            }
            Trouble::NoFolders if self.file.metadata()?.is_dir() => {
                Err(io::Error::from(ErrorKind::Other))
            }
            _ => self.file.sync_all(),
        }
    }

    fn sync_data(&self) -> io::Result<()> {
        self.sync_all()
    }
}

impl<F: Read + Write + Seek + PageFile + Drop> PageFile for TroubledFile<F> {
    fn read_page_at(&self, into: &mut [u8], place: u64) -> io::Result<()> {
        self.file.read_page_at(into, place)
    }

    fn write_page_at(&self, from: &[u8], place: u64) -> io::Result<()> {
        self.file.write_page_at(from, place)
    }

    fn lock_alone(&self) -> Result<(), TryLockError> {
        self.file.lock_alone()
    }
}

impl<'r, R: Files> Files for Troubled<'r, R> {
    type File = TroubledFile<R::File>;

    type Dir = R::Dir;

    fn open_file(&self, how: &OpenOptions, path: &str) -> io::Result<TroubledFile<R::File>> {
        let trouble = self.trouble;
        if let Trouble::ReadOnly = trouble
            && how.asks_write()
        {
            return Err(io::Error::from(ErrorKind::PermissionDenied));
        }
        let file = self.files.open_file(how, path)?;
        Ok(TroubledFile { file, trouble })
    }

    fn open_dir(&self, path: &str) -> io::Result<R::Dir> {
        self.files.open_dir(path)
    }

    fn metadata(&self, path: &str) -> io::Result<Metadata> {
        self.files.metadata(path)
    }

    fn symlink_metadata(&self, path: &str) -> io::Result<Metadata> {
        self.files.symlink_metadata(path)
    }

    fn copy(&self, from: &str, to: &str) -> io::Result<u64> {
        self.files.copy(from, to)
    }

    fn rename(&self, from: &str, to: &str) -> io::Result<()> {
        self.files.rename(from, to)
    }

    fn remove_file(&self, path: &str) -> io::Result<()> {
        self.files.remove_file(path)
    }

    fn create_dir(&self, path: &str) -> io::Result<()> {
        self.files.create_dir(path)
    }

    fn remove_dir(&self, path: &str) -> io::Result<()> {
        self.files.remove_dir(path)
    }

    fn remove_dir_all<B: Allocator>(&self, alloc: B, path: &str) -> io::Result<()> {
        self.files.remove_dir_all(alloc, path)
    }
}

// Makes the file of the device so many bytes long.
fn set_length<R: Files>(device: &FileDevice<'_, R>, bytes: u64) -> io::Result<()>
where
    R::File: PageFile,
{
    let file = OpenOptions::new()
        .write(true)
        .create(true)
        .open(device.rt, device.path.as_str())?;
    file.set_len(bytes)
}

// Does the step.
fn follow<'r, R: Files>(device: &mut FileDevice<'r, R>, step: Step) -> Result<u8, Failed>
where
    R::File: PageFile,
{
    match step {
        Step::Room(pages) => device.room(pages)?,
        Step::Put(page, number) => put(device, page, number)?,
        Step::Got(page) => return got(device, page),
        Step::Flush => device.flush()?,
        Step::Anew => {
            let Ok(path) = device.path.clone() else {
                return Err(Failed);
            };
            *device = FileDevice::named(device.rt, path);
        }
        Step::Length(bytes) => {
            if set_length(device, bytes).is_err() {
                return Err(Failed);
            }
        }
    }
    Ok(0)
}

// Does the step, and sees what it answers.
fn answer<'r, R: Files>(device: &mut FileDevice<'r, R>, step: Step) -> Answer
where
    R::File: PageFile,
{
    let done = follow(device, step);
    (done, device.pages(), device.faults)
}

// Does these steps, and gives the number of the first one that answers another thing, counted from 0.
fn first_wrong<'r, R: Files>(
    device: &mut FileDevice<'r, R>,
    steps: &[(Step, Answer)],
) -> Option<usize>
where
    R::File: PageFile,
{
    for (i, row) in steps.iter().enumerate() {
        if answer(device, row.0) != row.1 {
            return Some(i);
        }
    }
    None
}

// The device of a path at which there is no file.
fn no_file<'r, R: Files>(rt: &'r R, alloc: Global, path: &str) -> Result<FileDevice<'r, R>, Fail>
where
    R::File: PageFile,
{
    if rt.metadata(path).is_ok() {
        rt.remove_file(path)?;
    }
    Ok(FileDevice::named(rt, String::from_str(alloc, path)?))
}

#[test]
fn keeps_its_pages(rt: HostRuntime) -> Result<(), Fail> {
    let path = "page_device_own.img";
    let mut device = no_file(&rt, rt.alloc(), path)?;
    assert_eq!(rt; first_wrong(&mut device, &OWN_FILE), None);
    fs::remove_file(&rt, path)?;
    Ok(())
}

#[test]
fn notices_what_others_do(rt: HostRuntime) -> Result<(), Fail> {
    let path = "page_device_shared.img";
    let mut device = no_file(&rt, rt.alloc(), path)?;
    assert_eq!(rt; first_wrong(&mut device, &SHARED_FILE), None);
    fs::remove_file(&rt, path)?;
    Ok(())
}

#[test]
fn counts_what_a_read_only_file_refuses(rt: HostRuntime) -> Result<(), Fail> {
    let path = "page_device_read_only.img";
    fs::write(&rt, path, [0u8; 4096])?;
    let files = Troubled {
        files: &rt,
        trouble: Trouble::ReadOnly,
    };
    let mut device = FileDevice::named(&files, String::from_str(rt.alloc(), path)?);
    assert_eq!(rt; first_wrong(&mut device, &READ_ONLY_FILE), None);
    fs::remove_file(&rt, path)?;
    Ok(())
}

#[test]
fn ends_at_a_failed_sync(rt: HostRuntime) -> Result<(), Fail> {
    let path = "page_device_unsynced.img";
    let files = Troubled {
        files: &rt,
        trouble: Trouble::SyncsAtMost(4096),
    };
    let mut device = no_file(&files, rt.alloc(), path)?;
    assert_eq!(rt; first_wrong(&mut device, &UNSYNCED_FILE), None);
    fs::remove_file(&rt, path)?;
    Ok(())
}

#[test]
fn names_a_new_file_first(rt: HostRuntime) -> Result<(), Fail> {
    let path = "page_device_unnamed.img";
    let files = Troubled {
        files: &rt,
        trouble: Trouble::NoFolders,
    };
    let mut device = no_file(&files, rt.alloc(), path)?;
    assert_eq!(rt; first_wrong(&mut device, &UNNAMED_FILE), None);
    assert_eq!(rt; fs::metadata(&rt, path)?.len(), 0);
    fs::remove_file(&rt, path)?;
    Ok(())
}

#[test]
fn has_its_file_alone(rt: HostRuntime) -> Result<(), Fail> {
    let path = "page_device_in_use.img";
    let mut device = no_file(&rt, rt.alloc(), path)?;
    device.room(2)?;
    let mut second = FileDevice::named(&rt, String::from_str(rt.alloc(), path)?);
    assert_eq!(rt; first_wrong(&mut second, &FILE_IN_USE), None);
    assert_eq!(rt;
        second.reason().map(|why| why.kind()),
        Some(ErrorKind::ResourceBusy)
    );
    assert_eq!(rt; fs::metadata(&rt, path)?.len(), 8192);
    fs::remove_file(&rt, path)?;
    Ok(())
}

#[test]
fn tells_why_a_path_does_not_open(rt: HostRuntime) -> Result<(), Fail> {
    let mut folder = FileDevice::named(&rt, String::from_str(rt.alloc(), ".")?);
    assert_eq!(rt; first_wrong(&mut folder, &FOLDER), None);
    assert_eq!(rt;
        folder.reason().map(|why| why.kind()),
        Some(ErrorKind::IsADirectory)
    );
    for path in ["no_such_folder/image", ""] {
        let mut device = FileDevice::named(&rt, String::from_str(rt.alloc(), path)?);
        assert_eq!(rt; first_wrong(&mut device, &UNMADE), None, "of '{path}'");
    }
    Ok(())
}
