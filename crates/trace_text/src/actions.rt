// The lines that formatting and checking an image put.
ghost use Rattle.std.specs.Prelude.{◌≡◌, ◌≤◌, ◌++◌, length, decimal};
ghost use Rattle.trace_text.specs.Texts.{line_feed, formatted_line, sound_line, low_count_line, wrong_print_line, print_on_zero_line};

use crate::LineBuf;

// Puts a word and one number, and ends the line.
fn one_number(word: &[u8], number: u64, into: &mut LineBuf)
    requires { length word.now ≤ 100 }
    ensures { into.new ≡ word.now ++ decimal number ++ line_feed }
{
    into.clear();
    into.put_with(word, number);
    into.put(b"\n");
}

/// Puts the line of a new image in place of what a buffer held: `formatted`, its blocks and its data
/// pages. Takes no memory. Constant.
pub fn formatted_text(blocks: u32, pages: u32, into: &mut LineBuf)
    ensures { into.new ≡ formatted_line blocks pages }
{
    into.clear();
    into.put_with(b"formatted blocks=", blocks as u64);
    into.put_with(b" pages=", pages as u64);
    into.put(b"\n");
}

/// Puts the line of a sound image in place of what a buffer held: `sound`, and by how much its counts are
/// above the names. Takes no memory. Constant.
pub fn sound_text(waste: u64, into: &mut LineBuf)
    ensures { into.new ≡ sound_line waste }
{
    one_number(b"sound waste=", waste, into);
}

/// Puts the line of a count that is too low in place of what a buffer held: `lowcount`, the data page, its
/// stored count, and the number of blocks that name it. Takes no memory. Constant.
pub fn low_count_text(page: u32, stored: u32, named: u32, into: &mut LineBuf)
    ensures { into.new ≡ low_count_line page stored named }
{
    into.clear();
    into.put_with_two(b"lowcount ", page as u64, stored as u64);
    into.put_with(b" ", named as u64);
    into.put(b"\n");
}

/// Puts the line of a print that is not that of its data page in place of what a buffer held:
/// `wrongprint`, and the data page. Takes no memory. Constant.
pub fn wrong_print_text(page: u32, into: &mut LineBuf)
    ensures { into.new ≡ wrong_print_line page }
{
    one_number(b"wrongprint ", page as u64, into);
}

/// Puts the line of a print on a data page that nothing counts in place of what a buffer held:
/// `printonzero`, and the data page. Takes no memory. Constant.
pub fn print_on_zero_text(page: u32, into: &mut LineBuf)
    ensures { into.new ≡ print_on_zero_line page }
{
    one_number(b"printonzero ", page as u64, into);
}
