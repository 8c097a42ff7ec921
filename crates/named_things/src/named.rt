// Things with names, in the order in which they were given.

ghost use Rattle.std.specs.Prelude.{◌≡◌, ◌<◌, ◌^◌, ◌++◌, ◌∷◌, [], None, Some, length, slice_get, IfSome, OnOk, OnErr};
ghost use Rattle.program_law.specs.Changes.{renewed};
ghost use Rattle.program_law.specs.Places.{place_of};
ghost use Rattle.named_things.specs.Named.{names_of, things_of};

use frac_core::Memory;
use indexmap::IndexMap;
use std::alloc::Global;
use std::marker::Model;

/// Things with names, in the order in which they were given.
#[derive(Drop)]
pub struct Named<T> {
    entries: IndexMap<Vec<u8>, T>,
}

impl<T> Model for Named<T> {
    ghost use Rattle.std.specs.Prelude.{List, ℕ};
    ghost use Rattle.named_things.specs.Named.{named};

    ghost Value = { List (List ℕ × T) };

    ghost view = { λ n. named n.entries.entries };
}

impl<T: Copy + Drop> Named<T> {
    pub fn new(alloc: Global) -> Self
        ensures { result ≡ [] }
    {
        Named {
            entries: IndexMap::new(alloc),
        }
    }

    /// How many there are.
    pub fn len(&self) -> usize
        ensures len { result ≡ length self.now }
        ensures small { result < 2 ^ 63 }
    {
        self.entries.len()
    }

    /// The place of a name.
    pub fn find(&self, name: &[u8]) -> Option<usize>
        ensures place { result ≡ place_of (names_of self.now) name.now }
        ensures within { IfSome result (λ k. k < length self.now) }
    {
        self.entries.get_index_of(name)
    }

    /// Puts a thing last, under a new name.
    pub fn push(&mut self, name: Vec<u8>, thing: T) -> Result<(), Memory>
        requires { place_of (names_of self.old) name.items ≡ None }
        ensures ok { OnOk result (self.new ≡ self.old ++ (name.items, thing) ∷ []) }
        ensures err { OnErr result (self.new ≡ self.old) }
    {
        self.entries.insert(name, thing)?;
        Ok(())
    }

    /// The name at a place.
    pub fn name(&self, place: usize) -> &[u8]
        requires { place < length self.now }
        ensures { slice_get (names_of self.now) place ≡ Some result.now }
    {
        self.entries.get_index(place).unwrap().0
    }

    /// The thing at a place.
    pub fn thing(&self, place: usize) -> T
        requires { place < length self.now }
        ensures { slice_get (things_of self.now) place ≡ Some result }
    {
        *self.entries.get_index(place).unwrap().1
    }

    /// Puts another thing under the name at a place.
    pub fn renew(&mut self, place: usize, thing: T)
        requires { place < length self.old }
        ensures { self.new ≡ renewed self.old place thing }
    {
        *self.entries.pair_mut(place).1 = thing;
    }
}
