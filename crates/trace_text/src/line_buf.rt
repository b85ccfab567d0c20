// The bytes of one line.
use arrayvec::ArrayVec;
use itoa::Buffer;
use std::marker::Model;

/// Room for the longest line or reply: at most 8240 bytes. Takes no memory. Contracts see the list of
/// the bytes.
#[derive(Drop)]
pub struct LineBuf {
    bytes: ArrayVec<u8, 8240>,
}

impl Model for LineBuf {
    ghost use Rattle.std.specs.Prelude.{List, ℕ};

    ghost Value = { List ℕ };

    ghost view = { λ b. b.bytes.items };
}

impl LineBuf {
    ghost use Rattle.std.specs.Prelude.{◌≡◌, ◌+◌, ◌≤◌, [], ◌++◌, length, decimal};
    ghost use Rattle.trace_text.specs.Texts.{two};

    /// An empty line.
    pub fn new() -> LineBuf
        ensures { result ≡ [] }
    {
        LineBuf {
            bytes: ArrayVec::new(),
        }
    }

    /// The bytes that are used.
    pub fn bytes(&self) -> &[u8]
        ensures { result.now ≡ self.now }
    {
        self.bytes.as_slice()
    }

    /// Makes it empty.
    pub fn clear(&mut self)
        ensures { self.new ≡ [] }
    {
        self.bytes.clear();
    }

    // Appends bytes.
    pub(crate) fn put(&mut self, text: &[u8])
        requires { length self.old + length text.now ≤ 8240 }
        ensures text { self.new ≡ self.old ++ text.now }
        ensures length { length self.new ≡ length self.old + length text.now }
    {
        let _fits = self.bytes.try_extend_from_slice(text);
    }

    // Appends the decimal digits of a number.
    pub(crate) fn put_number(&mut self, number: u64)
        requires { length self.old + 20 ≤ 8240 }
        ensures text { self.new ≡ self.old ++ decimal number }
        ensures length { length self.new ≤ length self.old + 20 }
    {
        let mut digits = Buffer::new();
        self.put(digits.format(number).as_bytes());
    }

    // Appends a word and a number.
    pub(crate) fn put_with(&mut self, word: &[u8], number: u64)
        requires { length self.old + length word.now + 20 ≤ 8240 }
        ensures text { self.new ≡ self.old ++ (word.now ++ decimal number) }
        ensures length { length self.new ≤ length self.old + length word.now + 20 }
    {
        self.put(word);
        self.put_number(number);
    }

    // Appends a word, and two numbers with a space between.
    pub(crate) fn put_with_two(&mut self, word: &[u8], first: u64, second: u64)
        requires { length self.old + length word.now + 41 ≤ 8240 }
        ensures text { self.new ≡ self.old ++ (word.now ++ two first second) }
        ensures length { length self.new ≤ length self.old + length word.now + 41 }
    {
        self.put_with(word, first);
        self.put_with(b" ", second);
    }
}
