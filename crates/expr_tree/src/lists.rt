ghost use Rattle.std.specs.Prelude.{◌≡◌};

use moment_core::Stamp;
use std::marker::Model;

/// Moments as they were written. Contracts see their list.
#[derive(Debug, Drop)]
pub struct Stamps {
    stamps: Vec<Stamp>,
}

impl Model for Stamps {
    ghost use Rattle.std.specs.Prelude.{List};
    ghost use Rattle.moment_core.specs.declared.line.Stamp.{Stamp};

    ghost Value = { List Stamp };

    ghost view = { λ s. s.stamps.items };
}

impl Stamps {
    /// The moments of the vector, in its order.
    pub fn of(stamps: Vec<Stamp>) -> Stamps
        ensures { result ≡ stamps.items }
    {
        Stamps { stamps }
    }

    /// The moments, in their order.
    pub fn items(&self) -> &[Stamp]
        ensures { result.now ≡ self.now }
    {
        self.stamps.as_slice()
    }
}

/// The name of an entry of a book. Contracts see its bytes.
#[derive(Debug, Drop)]
pub struct Name {
    bytes: Vec<u8>,
}

impl Model for Name {
    ghost use Rattle.std.specs.Prelude.{List, ℕ};

    ghost Value = { List ℕ };

    ghost view = { λ n. n.bytes.items };
}

impl Name {
    /// The name with the bytes of the vector.
    pub fn of(bytes: Vec<u8>) -> Name
        ensures { result ≡ bytes.items }
    {
        Name { bytes }
    }

    /// The bytes of the name.
    pub fn items(&self) -> &[u8]
        ensures { result.now ≡ self.now }
    {
        self.bytes.as_slice()
    }
}
