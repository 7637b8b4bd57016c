ghost use Rattle.std.specs.Prelude.{◌≡◌, ◌+◌, ◌<◌, ◌≤◌, ◌++◌, [], length};
ghost use Rattle.report_text.specs.Lines.{with_line_feed};

use arrayvec::ArrayVec;
use std::marker::Model;

/// The byte that ends each line.
pub const LINE_FEED: u8 = b'\n';

/// A line of output, at most 128 bytes with its line feed.
///
/// Contracts see it as its bytes.
#[derive(Debug, Drop)]
pub struct Line {
    text: ArrayVec<u8, 128>,
}

impl Model for Line {
    ghost use Rattle.std.specs.Prelude.{List, ℕ};

    ghost Value = { List ℕ };

    ghost view = { λ l. l.text.items };
}

impl Line {
    pub(crate) fn new() -> Line
        ensures { result ≡ [] }
    {
        Line {
            text: ArrayVec::new(),
        }
    }

    pub(crate) fn put(&mut self, bytes: &[u8])
        requires { length self.old + length bytes.now ≤ 128 }
        ensures bytes { self.new ≡ self.old ++ bytes.now }
        ensures len { length self.new ≡ length self.old + length bytes.now }
    {
        self.text.try_extend_from_slice(bytes).unwrap();
    }

    /// Ends the line.
    pub(crate) fn end(&mut self)
        requires { length self.old < 128 }
        ensures { self.new ≡ with_line_feed self.old }
    {
        self.put(&[LINE_FEED]);
    }

    /// The bytes of the line, with its line feed.
    pub fn bytes(&self) -> &[u8]
        ensures value { result.now ≡ self.now }
        ensures short { length result.now ≤ 128 }
    {
        self.text.as_slice()
    }
}
