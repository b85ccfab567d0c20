// The texts of replies.
#![tactic(auto, unfolding(crate::specs::Texts::reply_words, crate::specs::Texts::halt_words))]

ghost use Rattle.std.specs.Prelude.{◌≡◌, ◌+◌, ◌≤◌, ◌++◌, length};
ghost use Rattle.trace_text.specs.Texts.{halt_words, reply_words, damage_line, text_of};

use crate::contents::put_hex_or_dash;
use crate::{Halt, LineBuf, Reply, ScanReport, Stat};
use page_device::{Damage, Page};

// Appends the words of a malformed entry.
fn put_damage(damage: Damage, into: &mut LineBuf)
    requires { length into.old ≤ 50 }
    ensures text { into.new ≡ into.old ++ reply_words (Reply.Damaged damage) }
    ensures length { length into.new ≤ length into.old + 49 }
{
    into.put_with_two(b"damaged ", damage.page as u64, damage.entry as u64);
}

// Appends the words of a full store.
fn put_full(live: u32, waste: u64, into: &mut LineBuf)
    requires { length into.old ≤ 50 }
    ensures text { into.new ≡ into.old ++ reply_words (Reply.Full live waste) }
    ensures length { length into.new ≤ length into.old + 46 }
{
    into.put_with_two(b"full ", live as u64, waste);
}

// Appends the numbers of a store.
fn put_stat(stat: &Stat, into: &mut LineBuf)
    requires { length into.old ≤ 21 }
    ensures text { into.new ≡ into.old ++ reply_words (Reply.Stat stat.now) }
    ensures length { length into.new ≤ 200 }
{
    into.put_with(b"stat live=", stat.live as u64);
    into.put_with(b" waste=", stat.waste);
    into.put_with(b" postponed=", stat.postponed as u64);
    into.put_with(b" dirty=", stat.dirty as u64);
}

// Appends what a scan changed.
fn put_scan(report: &ScanReport, into: &mut LineBuf)
    requires { length into.old ≤ 21 }
    ensures text { into.new ≡ into.old ++ reply_words (Reply.Scan report.now) }
    ensures length { length into.new ≤ 200 }
{
    into.put_with(b"scan freed=", report.freed as u64);
    into.put_with(b" lowered=", report.lowered as u64);
    into.put_with(b" printed=", report.printed as u64);
}

// Appends why a copy stopped.
fn put_halt(why: &Halt, into: &mut LineBuf)
    requires { length into.old ≤ 50 }
    ensures text { into.new ≡ into.old ++ halt_words why.now }
    ensures length { length into.new ≤ 99 }
{
    match why {
        Halt::Fault => into.put(b"fault"),
        Halt::Damaged(damage) => put_damage(*damage, into),
        Halt::Full { live, waste } => put_full(*live, *waste, into),
        Halt::NoMemory => into.put(b"nomem"),
    }
}

// Appends how far a copy came and why it stopped.
fn put_stopped(done: u32, why: &Halt, into: &mut LineBuf)
    requires { length into.old ≤ 21 }
    ensures text { into.new ≡ into.old ++ reply_words (Reply.Stopped done why.now) }
    ensures length { length into.new ≤ 200 }
{
    into.put_with(b"stopped ", done as u64);
    into.put(b" ");
    put_halt(why, into);
}

// Appends the content of a block.
fn put_data(page: &Page, into: &mut LineBuf)
    requires { length into.old ≤ 21 }
    ensures text { into.new ≡ into.old ++ reply_words (Reply.Bytes page.now) }
    ensures length { length into.new ≤ 8230 }
{
    into.put(b"data ");
    put_hex_or_dash(page, into);
}

// Appends a reply.
fn put_reply(reply: &Reply, into: &mut LineBuf)
    requires { length into.old ≤ 21 }
    ensures text { into.new ≡ into.old ++ reply_words reply.now }
    ensures length { length into.new ≤ 8230 }
{
    match reply {
        Reply::Done => into.put(b"ok"),
        Reply::Bytes(page) => put_data(page, into),
        Reply::Range => into.put(b"range"),
        Reply::Fault => into.put(b"fault"),
        Reply::Damaged(damage) => put_damage(*damage, into),
        Reply::Full { live, waste } => put_full(*live, *waste, into),
        Reply::NoMemory => into.put(b"nomem"),
        Reply::Stat(stat) => put_stat(stat, into),
        Reply::Scan(report) => put_scan(report, into),
        Reply::NoPolicy => into.put(b"nopolicy"),
        Reply::Bad => into.put(b"bad"),
        Reply::Overlap => into.put(b"overlap"),
        Reply::Stopped { done, why } => put_stopped(*done, why, into),
    }
}

/// Puts a line that names a malformed entry in place of what a buffer held: `damaged`, its page and its
/// place in the page, and LF. Takes no memory. Constant.
pub fn damage_text(damage: Damage, into: &mut LineBuf)
    ensures { into.new ≡ damage_line damage }
{
    into.clear();
    put_damage(damage, into);
    into.put(b"\n");
}

/// Puts the line of a reply in place of what a buffer held: the number of device writes and barriers
/// so far, a space, the words of the reply, and LF. Takes no memory. Linear in the line.
pub fn reply_text(at: u64, reply: &Reply, into: &mut LineBuf)
    ensures { into.new ≡ text_of at reply.now }
{
    into.clear();
    into.put_number(at);
    into.put(b" ");
    put_reply(reply, into);
    into.put(b"\n");
}
