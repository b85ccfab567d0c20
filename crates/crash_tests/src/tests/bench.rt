// A session of the lines `w 0 5`, `f` and `w 0 6` over a device in memory that holds a freshly formatted
// image of 4 blocks and 4 data pages: page 0 tells its shape, page 1 is the map page, page 2 the count
// page, page 3 the print page, and pages 4 to 7 are the data pages.
use byte_ports::{MemSink, MemSource};
use page_device::{Device, MemDevice};
use page_layout::{Shape, super_page};
use session::{Status, run};
use std::alloc::Global;
use std::test::Fail;
use trace_text::Command;

pub fn formatted(alloc: Global) -> Result<MemDevice, Fail> {
    let shape = Shape::new(4, 4)?;
    let mut start = Vec::with_capacity(alloc, 1)?;
    start.push_reserved(super_page(&shape));
    let mut device = MemDevice::holding(alloc, start);
    device.room(shape.total())?;
    Ok(device)
}

// The command of a line, and behind the last line one that does nothing.
pub fn command(line: usize) -> Command {
    match line {
        0 => Command::Write {
            block: 0,
            number: 5,
        },
        1 => Command::Flush,
        2 => Command::Write {
            block: 0,
            number: 6,
        },
        _ => Command::Tick,
    }
}

// Runs the session. Gives its status, and whether it put this text.
pub fn ends(alloc: Global, device: &mut MemDevice, text: &str) -> Result<(Status, bool), Fail> {
    let mut words = Vec::new(alloc);
    words.push(String::from_str(alloc, "trace")?)?;
    let bytes = b"w 0 5\nf\nw 0 6\n".to_vec(alloc)?;
    let mut source = MemSource::new(bytes, 3, Vec::new(alloc));
    let mut sink = MemSink::new(alloc, Vec::new(alloc));
    sink.reserve(1024)?;
    let status = run(alloc, &words, &mut source, &mut sink, device);
    Ok((status, sink.bytes() == text.as_bytes()))
}
