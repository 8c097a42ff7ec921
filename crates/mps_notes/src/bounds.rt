// Bounds.

ghost use Rattle.std.specs.Prelude.{◌≡◌, [], None};

use frac_core::Frac;
use mps_tokens::BoundKind;
use std::alloc::Global;

/// A bound that a line tells. The value of a kind that has none is 0, or what the line gives beside it.
#[derive(Clone, Copy)]
pub struct Bound {
    pub kind: BoundKind,
    pub column: usize,
    pub value: Frac,
}

/// The name of the used set, and its bounds.
#[derive(Drop)]
pub struct Bounds {
    pub set: Option<Vec<u8>>,
    pub items: Vec<Bound>,
}

impl Bounds {
    /// Before the first line: no set is named.
    pub fn new(alloc: Global) -> Bounds
        ensures set { result.set ≡ None }
        ensures items { result.items.items ≡ [] }
    {
        Bounds {
            set: None,
            items: Vec::new(alloc),
        }
    }
}
