//! The program. `omd_tool IMAGE trace` is a session of the trace language over an image, which is a file
//! or a block device node; `omd_tool IMAGE format --blocks L --pages N` makes a new image, and
//! `omd_tool IMAGE check` tells whether it is sound.
//!
//! Commands come from standard input, replies go to standard output, and the exit status says how the
//! session ended (`docs/ARCHITECTURE.md`).
#![tactic(auto)]

use byte_ports::{StdSink, StdSource};
use cli_words::{EXAMPLE, MANUAL, USAGE};
use page_device::FileDevice;
use session::{Status, run};
use std::alloc::{AllocError, Global};
use std::fs::{File, OpenOptions};
use std::os::fd::{AsRawFd, RawFd};
use std::process::ExitCode;
use std::{env, io};

// The words that are left.
fn rest(alloc: Global, words: env::Args) -> Result<Vec<String>, AllocError> {
    let mut list = Vec::new(alloc);
    for word in words {
        list.push(word)?;
    }
    Ok(list)
}

// How the program ends where its words can't be read: one that is not UTF-8 is no word of its grammar.
fn unread(why: &io::Error) -> Status {
    match why.kind() {
        io::ErrorKind::OutOfMemory => Status::NoMemory,
        _ => Status::Usage,
    }
}

// The words: the program's name, the path of the image, and those that `run` takes.
fn run_words(rt: &HostRuntime, words: env::Args) -> Status {
    let mut words = words;
    let _program = words.next();
    let Some(path) = words.next() else {
        return Status::Usage;
    };
    let Ok(words) = rest(rt.alloc(), words) else {
        return Status::NoMemory;
    };
    let mut device = FileDevice::named(rt, path);
    let mut source = StdSource::new(rt.stdin());
    let mut sink = StdSink::new(rt.stdout());
    let status = run(rt.alloc(), &words, &mut source, &mut sink, &mut device);
    tell(rt, &device);
    status
}

// Puts what the system said of the image, on standard error: that it could not be locked, and the reason of the
// first call that failed, also where a session answered `fault` and went on. Where standard error fails there is
// nothing left to tell it to.
fn tell(rt: &HostRuntime, device: &FileDevice<'_, HostRuntime>) {
    let image = device.path();
    if let Some(why) = device.unlocked() {
        let _ = eprintln!(rt; "omd_tool: {image}: opened without a lock: {why}");
    }
    if let Some(why) = device.reason() {
        let _ = eprintln!(rt; "omd_tool: {image}: {why}");
    }
}

// What stands in for standard input, output and error, where the program began with them closed. A file that
// is opened gets the lowest number that is free, so the image would get theirs: replies would be written into
// it, and its pages be read as commands. Each stand-in is kept as long as the program runs, and fails as what it
// stands for: input is opened for writing alone, output and error are opened for reading alone.
fn stand_ins(rt: &HostRuntime) -> io::Result<[Option<File>; 3]> {
    let mut to_write = OpenOptions::new();
    to_write.write(true);
    let mut to_read = OpenOptions::new();
    to_read.read(true);
    Ok([
        null_device(rt, &to_write, 0)?,
        null_device(rt, &to_read, 2)?,
        null_device(rt, &to_read, 2)?,
    ])
}

// The null device, where its number is at most the last one: else it is closed again.
fn null_device(rt: &HostRuntime, how: &OpenOptions, last: RawFd) -> io::Result<Option<File>> {
    let file = how.open(rt, "/dev/null")?;
    if file.as_raw_fd() > last {
        return Ok(None);
    }
    Ok(Some(file))
}

fn main(rt: HostRuntime) -> ExitCode {
    let Ok(_stand_ins) = stand_ins(&rt) else {
        let _ = eprintln!(rt; "omd_tool: the null device /dev/null can't be opened");
        return ExitCode::from(Status::DeviceFault.number());
    };
    let status = match env::args(&rt) {
        Ok(words) => run_words(&rt, words),
        Err(why) => unread(&why),
    };
    if status == Status::Usage {
        let _ = eprintln!(rt; "{USAGE}\n{EXAMPLE}\n{MANUAL}");
    }
    ExitCode::from(status.number())
}
