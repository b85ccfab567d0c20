// Whole exchanges, message by message.
use nbd_wire::{
    BadMagic, ErrorNumber, FUA, OptionHead, OptionKind, OptionReply, Request, RequestKind,
    export_bytes, greeting_bytes, info_bytes, option_reply_head, read_option, read_request,
    reply_bytes, request_bytes,
};

fn request(flags: u16, kind: RequestKind, cookie: u64, offset: u64, length: u32) -> Request {
    Request {
        flags,
        kind: kind.number(),
        cookie,
        offset,
        length,
    }
}

#[test]
fn requests(rt: HostRuntime) {
    for (bytes, want) in [
        (
            b"\x25\x60\x95\x13\0\0\0\x01\0\0\0\0\0\0\0\x07\0\0\0\0\0\0\0\x01\0\0\0\x02",
            request(0, RequestKind::Write, 7, 1, 2),
        ),
        (
            b"\x25\x60\x95\x13\0\0\0\0\0\0\0\0\0\0\0\x08\0\0\0\0\0\0\0\0\0\0\0\x04",
            request(0, RequestKind::Read, 8, 0, 4),
        ),
        (
            b"\x25\x60\x95\x13\0\0\0\0\0\0\0\0\0\0\0\x09\0\0\0\0\0\0\x3f\xff\0\0\0\x02",
            request(0, RequestKind::Read, 9, 0x3fff, 2),
        ),
        (
            b"\x25\x60\x95\x13\0\0\0\x01\0\0\0\0\0\0\0\x09\0\0\0\0\0\0\x3f\xff\0\0\0\x02",
            request(0, RequestKind::Write, 9, 0x3fff, 2),
        ),
        (
            b"\x25\x60\x95\x13\0\x01\0\x01\0\0\0\0\0\0\0\x07\0\0\0\0\0\0\0\x01\0\0\0\x02",
            request(FUA, RequestKind::Write, 7, 1, 2),
        ),
    ] {
        assert_eq!(rt; read_request(bytes), Ok(want));
        assert_eq!(rt; request_bytes(&want), *bytes);
        assert_eq!(rt; RequestKind::of_number(want.kind).is_some(), true);
    }
}

#[test]
fn replies(rt: HostRuntime) {
    for (error, cookie, want) in [
        (0, 7, b"\x67\x44\x66\x98\0\0\0\0\0\0\0\0\0\0\0\x07"),
        (0, 8, b"\x67\x44\x66\x98\0\0\0\0\0\0\0\0\0\0\0\x08"),
        (
            ErrorNumber::Invalid.number(),
            9,
            b"\x67\x44\x66\x98\0\0\0\x16\0\0\0\0\0\0\0\x09",
        ),
        (
            ErrorNumber::NoSpace.number(),
            9,
            b"\x67\x44\x66\x98\0\0\0\x1c\0\0\0\0\0\0\0\x09",
        ),
    ] {
        assert_eq!(rt; reply_bytes(error, cookie), *want);
    }
}

#[test]
fn options(rt: HostRuntime) {
    for (bytes, number, length, kind) in [
        (b"IHAVEOPT\0\0\0\x07\0\0\0\x06", 7, 6, Some(OptionKind::Go)),
        (b"IHAVEOPT\0\0\0\x08\0\0\0\0", 8, 0, None),
        (
            b"IHAVEOPT\0\0\0\x01\0\0\0\0",
            1,
            0,
            Some(OptionKind::ExportName),
        ),
    ] {
        assert_eq!(rt; read_option(bytes), Ok(OptionHead { number, length }));
        assert_eq!(rt; OptionKind::of_number(number), kind);
    }
    assert_eq!(rt; read_option(b"IHAVEOPS\0\0\0\x07\0\0\0\0"), Err(BadMagic));
}

#[test]
fn answers_to_options(rt: HostRuntime) {
    assert_eq!(rt; greeting_bytes(), *b"NBDMAGICIHAVEOPT\0\x03");
    assert_eq!(rt; export_bytes(0x4000), *b"\0\0\0\0\0\0\x40\0\0\x2d");
    assert_eq!(rt; info_bytes(0x4000), *b"\0\0\0\0\0\0\0\0\x40\0\0\x2d");
    for (number, reply, length, want) in [
        (
            OptionKind::Go.number(),
            OptionReply::Information,
            12,
            b"\0\x03\xe8\x89\x04\x55\x65\xa9\0\0\0\x07\0\0\0\x03\0\0\0\x0c",
        ),
        (
            OptionKind::Go.number(),
            OptionReply::Acknowledged,
            0,
            b"\0\x03\xe8\x89\x04\x55\x65\xa9\0\0\0\x07\0\0\0\x01\0\0\0\0",
        ),
        (
            8,
            OptionReply::Unsupported,
            0,
            b"\0\x03\xe8\x89\x04\x55\x65\xa9\0\0\0\x08\x80\0\0\x01\0\0\0\0",
        ),
    ] {
        assert_eq!(rt; option_reply_head(number, reply.number(), length), *want);
    }
}
