ghost use Rattle.std.specs.Prelude.{◌≡◌, ◌<◌, [], Some, IfSome, IfNone, length, slice_get};
ghost use Rattle.stored_pair.specs.Names.{HasNoName, names_of};

use std::alloc::Global;

/// An entry of a book.
#[derive(Debug, Drop)]
struct Entry {
    name: String,
}

/// Recurrences by name, numbered from 0 in the order in which they were added.
#[derive(Debug, Drop)]
pub struct Book {
    entries: Vec<Entry>,
}

impl Book {
    /// A book without entries. It takes no memory.
    pub fn empty(alloc: Global) -> Book
        ensures { names_of result ≡ [] }
    {
        Book {
            entries: Vec::new(alloc),
        }
    }

    /// The number of the entry with the name, or None exactly where there is none.
    pub fn find(&self, name: &str) -> Option<usize>
        ensures found { IfSome result (λ id. slice_get (names_of self.now) id ≡ Some name.now) }
        ensures within { IfSome result (λ id. id < length (names_of self.now)) }
        ensures missing { IfNone result (HasNoName (names_of self.now) name.now) }
    {
        for id in 0..self.len() {
            if self.name(id) == name {
                return Some(id);
            }
        }
        None
    }

    fn len(&self) -> usize
        ensures { result ≡ length (names_of self.now) }
    {
        self.entries.len()
    }

    fn name(&self, id: usize) -> &str
        requires { id < length (names_of self.now) }
        ensures { slice_get (names_of self.now) id ≡ Some result.now }
    {
        self.entries[id].name.as_str()
    }
}
