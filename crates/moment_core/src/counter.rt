use std::marker::Model;
use std::sync::ledger::{Blank, Book, Ledger, Share};

/// How many steps were taken, up to a full count of 2^64 - 1.
///
/// It takes no bytes when the program runs: contracts alone see the number, and only `tick` changes
/// it.
#[derive(Drop)]
pub struct Steps<L: Ledger> {
    book: Book<L>,
    share: Share<L>,
}

impl<L: Ledger> Model for Steps<L> {
    ghost use Rattle.std.specs.Prelude.{ℕ, ◌<◌};
    ghost use Rattle.moment_core.specs.Counter.{capped};

    ghost Value = { ℕ };

    ghost view = { λ s. capped s.book.total };

    ghost invariant = { λ s. 0 < s.share.parts };
}

impl<L: Ledger> Steps<L> {
    ghost use Rattle.std.specs.Prelude.{◌≡◌, ◌+◌, ◌<◌, ◌≤◌};
    ghost use Rattle.moment_core.specs.Counter.{capped};

    /// A counter at 0, from a blank of its ledger.
    pub fn new(blank: Blank) -> Steps<L>
        requires name { blank.name ≡ L.name }
        requires parts { blank.parts ≡ L.parts }
        requires some { 0 < blank.parts }
        ensures { result ≡ 0 }
    {
        let (book, share) = blank.open::<L>();
        Steps { book, share }
    }

    /// Counts one step more, where the counter isn't full.
    pub fn tick(&mut self)
        ensures count { self.new ≡ capped (self.old + 1) }
        ensures grows { self.old ≤ self.new }
    {
        self.book.add(&mut self.share, 1);
    }
}
