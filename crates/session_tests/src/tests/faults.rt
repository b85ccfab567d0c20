// A port or a device call fails.
use crate::tests::bench::{begun, ends, ends_over, ends_with, sink, source};
use page_device::MemDevice;
use session::Status;
use std::test::Fail;

// The word, the calls of the source and of the sink that fail, the text, and the status.
const PORTS: [(&str, &[u64], &[u64], &str, Status); 3] = [
    // the second call, after one whole line
    (
        "trace",
        &[2],
        &[],
        "0 data -\nsource fault\n",
        Status::SourceFault,
    ),
    ("trace", &[], &[1], "", Status::SinkFault),
    ("check", &[], &[1], "", Status::SinkFault),
];

#[test]
fn a_port_fails(rt: HostRuntime) -> Result<(), Fail> {
    for (word, of_source, of_sink, text, status) in PORTS {
        let mut device = begun(rt.alloc(), (4, 4, 1))?;
        let ports = (
            source(rt.alloc(), b"r 0\n", 4, of_source)?,
            sink(rt.alloc(), of_sink)?,
        );
        let end = ends_over(rt.alloc(), &mut device, &[word], ports, text)?;
        assert_eq!(rt; end, (status, true), "{word}");
    }
    Ok(())
}

// The first read of the device fails.
#[test]
fn first_read_fails(rt: HostRuntime) -> Result<(), Fail> {
    for words in [&["trace"], &["check"]] {
        let mut device = begun(rt.alloc(), (4, 4, 1))?;
        device.fail_read(1)?;
        let end = ends_with(rt.alloc(), &mut device, words, "r 0\n", "device fault\n")?;
        assert_eq!(rt; end, (Status::DeviceFault, true));
    }
    Ok(())
}

// The device has no room for a new image.
#[test]
fn room_fails(rt: HostRuntime) -> Result<(), Fail> {
    let mut device = MemDevice::holding(rt.alloc(), Vec::new(rt.alloc()));
    device.fail_room(1)?;
    let words = ["format", "--blocks", "4", "--pages", "4"];
    let end = ends_with(rt.alloc(), &mut device, &words, "", "device fault\n")?;
    assert_eq!(rt; (end, device.calls()), ((Status::DeviceFault, true), 0));
    Ok(())
}

// The calls that fail, the input, the text, and the status. A data or a count page that can't be written is a
// fault of the write; a map page is pending until the flush, and the close.
const CALLS: [(&[u64], &str, &str, Status); 5] = [
    (
        &[1],
        "w 0 5\nr 0\nw 0 6\nr 0\n",
        "1 fault\n1 data -\n7 ok\n7 data 0000000000000006\n",
        Status::Done,
    ),
    (&[4], "w 0 5\nf\nf\n", "4 fault\n4 ok\n4 ok\n", Status::Done),
    (
        &[5],
        "w 0 5\nt\nf\nt\n",
        "5 ok\n5 stat live=1 waste=0 postponed=0 dirty=1\n7 ok\n7 stat live=1 waste=0 postponed=0 dirty=0\n",
        Status::Done,
    ),
    (&[6], "w 0 5\nf\nf\n", "6 ok\n8 ok\n8 ok\n", Status::Done),
    // the map page can't be written by the command, nor at the close
    (
        &[5, 6],
        "w 0 5\n",
        "5 ok\ndevice fault\n",
        Status::DeviceFault,
    ),
];

fn fail_calls(device: &mut MemDevice, calls: &[u64], taken: bool) -> Result<(), Fail> {
    for call in calls {
        device.fail_call(*call, taken)?;
    }
    Ok(())
}

#[test]
fn a_device_call_fails(rt: HostRuntime) -> Result<(), Fail> {
    for (calls, input, text, status) in CALLS {
        for taken in [false, true] {
            let mut device = begun(rt.alloc(), (4, 4, 1))?;
            fail_calls(&mut device, calls, taken)?;
            let end = ends(rt.alloc(), &mut device, input, text)?;
            assert_eq!(rt; end, (status, true), "{calls:?}");
        }
    }
    Ok(())
}
