// Right sides and ranges, and the set that is used.

ghost use Rattle.std.specs.Prelude.{◌≡◌, [], None, Some, IfOk, OnOk};
ghost use Rattle.mps_grammar.specs.Told.{is_used, first_named};
ghost use Rattle.mps_notes.specs.Told.{text_in};

use crate::numbers::Numbers;
use frac_core::Memory;
use std::alloc::Global;

/// Right sides or ranges: the name of the used set, and its numbers.
#[derive(Drop)]
pub struct Sides {
    pub set: Option<Vec<u8>>,
    pub numbers: Numbers,
}

impl Sides {
    /// Before the first line: no set is named.
    pub fn new(alloc: Global) -> Result<Sides, Memory>
        ensures set { IfOk result (λ sides. sides.set ≡ None) }
        ensures numbers { IfOk result (λ sides. sides.numbers ≡ []) }
    {
        let numbers = Numbers::new(alloc)?;
        Ok(Sides { set: None, numbers })
    }
}

/// Whether a line's set is the used one, which the first line names.
pub fn is_used(set: &Option<Vec<u8>>, name: &[u8]) -> bool
    ensures { result ≡ is_used (text_in set.now) name.now }
{
    match set {
        Some(set) => name == set.as_slice(),
        None => true,
    }
}

/// Keeps the name of the used set, where this is the first line.
pub fn name_set(alloc: Global, set: &mut Option<Vec<u8>>, name: &[u8]) -> Result<(), Memory>
    ensures { OnOk result (text_in set.new ≡ first_named (text_in set.old) (Some name.now)) }
{
    if set.is_none() {
        *set = Some(Vec::from_slice(alloc, name)?);
    }
    Ok(())
}
