// A text that is put together piece by piece.
ghost use Rattle.std.specs.Prelude.{◌≡◌, ◌+◌, ◌≤◌, [], ◌++◌, length};

use arrayvec::ArrayString;
use itoa::{Buffer, Integer};
use std::marker::Model;

// The longest text, of a stopped search with a plan of 32 batches, has 249 bytes.
#[derive(Drop)]
pub(crate) struct Text {
    written: ArrayString<320>,
}

impl Model for Text {
    ghost use Rattle.std.specs.Prelude.{ℕ, List};

    ghost Value = { List ℕ };

    ghost view = { λ t. t.written.bytes };
}

impl Text {
    // No bytes.
    pub(crate) fn new() -> Text
        ensures { result ≡ [] }
    {
        Text {
            written: ArrayString::new(),
        }
    }

    // Appends a word.
    pub(crate) fn push(&mut self, word: &str)
        requires { length self.old + length word.now ≤ 320 }
        ensures { self.new ≡ self.old ++ word.now }
    {
        self.written.push_str(word);
    }

    // Appends a number in decimal. Not by `write!`, which promises something of an Ok alone, and not when there is one.
    pub(crate) fn push_number<N: Integer>(&mut self, number: N)
        requires { length self.old + N.MAX_STR_LEN ≤ 320 }
        ensures holds { self.new ≡ self.old ++ N.text number }
        ensures short { length self.new ≤ length self.old + N.MAX_STR_LEN }
    {
        let mut buffer = Buffer::new();
        self.push(buffer.format(number));
    }

    // The bytes so far.
    pub(crate) fn bytes(&self) -> &[u8]
        ensures holds { result.now ≡ self.now }
        ensures short { length self.now ≤ 320 }
    {
        self.written.as_str().as_bytes()
    }
}
