// Fingerprints that sha1sum and sha256sum give, and each call of an index of prints once.
use finger_table::{Prints, fingerprint};
use page_device::Page;
use std::test::Fail;

// The number of a page, and the fingerprint of its content in version 1 and in version 2.
const DIGESTS: [(u64, [u8; 20], [u8; 20]); 2] = [
    (
        0,
        *b"\x1c\xea\xf7\x3d\xf4\x0e\x53\x1d\xf3\xbf\xb2\x6b\x4f\xb7\xcd\x95\xfb\x7b\xff\x1d",
        *b"\xad\x7f\xac\xb2\x58\x6f\xc6\xe9\x66\xc0\x04\xd7\xd1\xd1\x6b\x02\x4f\x58\x05\xff",
    ),
    (
        5,
        *b"\x75\x55\x3f\xa2\x3f\x9b\x42\x3c\xd5\x35\xab\x33\xe6\x27\xff\x27\xaa\xb3\x1b\x19",
        *b"\x35\xb5\xc9\x02\x0d\x56\xb7\x43\xdc\xc7\x49\xd4\xeb\x5a\x91\xbe\xf1\xc0\xf6\x99",
    ),
];

#[test]
fn matches_other_tools(rt: HostRuntime) {
    for (number, first, second) in DIGESTS {
        let page = Page::numbered(number);
        assert_eq!(rt; fingerprint(1, &page), first, "SHA-1 of the page {number}");
        assert_eq!(rt;
            fingerprint(2, &page),
            second,
            "SHA-256 of the page {number}"
        );
    }
}

#[test]
fn finds_pages(rt: HostRuntime) -> Result<(), Fail> {
    let mut prints = Prints::new(rt.alloc());
    for page in [9, 3, 7] {
        prints.insert(&[1; 20], page)?;
    }
    prints.insert(&[2; 20], 5)?;
    assert_eq!(rt; prints.candidates(&[1; 20]), [3, 7, 9].as_slice());
    assert_eq!(rt; prints.candidates(&[2; 20]), [5].as_slice());
    assert_eq!(rt; prints.candidates(&[3; 20]).len(), 0);
    Ok(())
}

#[test]
fn takes_prints_away(rt: HostRuntime) -> Result<(), Fail> {
    let mut prints = Prints::new(rt.alloc());
    prints.reserve(&[1; 20], 4)?;
    prints.insert(&[1; 20], 4)?;
    prints.insert(&[2; 20], 4)?;
    assert_eq!(rt; prints.print_of(4), Some([2; 20]));
    assert_eq!(rt; prints.candidates(&[1; 20]).len(), 0);
    prints.remove(4);
    prints.remove(4);
    assert_eq!(rt; prints.print_of(4), None);
    Ok(())
}
