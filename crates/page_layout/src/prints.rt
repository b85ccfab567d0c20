// The entries of print pages: 170 a page, each a flag, three zero bytes and the 20 of a fingerprint.
ghost use Rattle.std.specs.Prelude.{◌≡◌, ◌<◌};
ghost use Rattle.page_layout.specs.Tables.{print_entry_of};
ghost use Rattle.page_layout.specs.Entries.{print_bytes, SetsPrint};

use page_device::Page;

/// The fingerprint of an entry of a print page, where its flag says that there is one. Constant time.
pub fn print_entry(page: &Page, i: u32) -> Option<[u8; 20]>
    requires { i < 170 }
    ensures { result ≡ print_entry_of page.now i }
{
    let at = 24 * i as usize;
    if page.0[at] != 1 {
        return None;
    }
    let mut print = [0; 20];
    print.copy_from_slice(&page.0[at + 4..at + 24]);
    Some(print)
}

/// Sets the entry `i` of a print page, and no other byte of it. Constant time.
pub fn set_print_entry(page: &mut Page, i: u32, print: Option<[u8; 20]>)
    requires { i < 170 }
    ensures { SetsPrint page.old i print page.new }
{
    let at = 24 * i as usize;
    page.0[at..at + 24].copy_from_slice(&entry_bytes(print));
}

// The 24 bytes of an entry.
fn entry_bytes(print: Option<[u8; 20]>) -> [u8; 24]
    ensures { result ≡ print_bytes print }
{
    let mut bytes = [0; 24];
    if let Some(print) = print {
        bytes[0] = 1;
        bytes[4..].copy_from_slice(&print);
    }
    bytes
}
