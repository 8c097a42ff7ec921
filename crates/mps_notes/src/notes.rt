// What is kept of the lines.

ghost use Rattle.std.specs.Prelude.{◌≡◌, [], IfOk};
ghost use Rattle.mps_grammar.specs.Told.{told_by};
ghost use Rattle.mps_notes.specs.Notes.{told_in, IsSound};

use crate::bounds::Bounds;
use crate::numbers::Numbers;
use crate::rows::Rows;
use crate::sides::Sides;
use frac_core::Memory;
use mps_tokens::Section;
use named_things::Named;
use std::alloc::Global;

/// What is kept of the lines so far.
#[derive(Drop)]
pub struct Notes {
    /// How many lines there are.
    pub lines: u32,
    /// The sections that were begun, the last one first.
    pub sections: Vec<Section>,
    pub rows: Rows,
    /// The columns with their marks.
    pub columns: Named<bool>,
    /// Whether a stretch of marked columns is begun.
    pub begun: bool,
    pub entries: Numbers,
    pub sides: Sides,
    pub ranges: Sides,
    pub bounds: Bounds,
    pub pairs: Numbers,
}

impl Notes {
    /// What is kept before the first line.
    ///
    /// # Errors
    /// `Memory`.
    pub fn start(alloc: Global) -> Result<Notes, Memory>
        ensures told { IfOk result (λ notes. told_in notes ≡ told_by []) }
        ensures sound { IfOk result (λ notes. IsSound notes) }
    {
        let entries = Numbers::new(alloc)?;
        let sides = Sides::new(alloc)?;
        let ranges = Sides::new(alloc)?;
        let pairs = Numbers::new(alloc)?;
        Ok(Notes {
            lines: 0,
            sections: Vec::new(alloc),
            rows: Rows::new(alloc),
            columns: Named::new(alloc),
            begun: false,
            entries,
            sides,
            ranges,
            bounds: Bounds::new(alloc),
            pairs,
        })
    }
}
