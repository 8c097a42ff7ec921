// The lines that were read so far.

ghost use Rattle.std.specs.Prelude.{◌≡◌, ◌<◌, ◌+◌, ◌^◌, ℕ, List, [], IfOk};
ghost use Rattle.mps_tokens.specs.Lines.{without_return};
ghost use Rattle.mps_grammar.specs.Faults.{is_beyond};
ghost use Rattle.mps_grammar.specs.Told.{told_by};
ghost use Rattle.mps_notes.specs.Notes.{told_in, IsSound};
ghost use Rattle.mps_lines.specs.Steps.{TakesLine};

use crate::taking::take_line;
use frac_core::Memory;
use mps_notes::{Draft, Notes};
use mps_sections::LineStop;
use std::alloc::Global;
use std::marker::Model;

/// The lines that were read so far, as what is kept of them: one value to own, and not many lists.
#[derive(Drop)]
pub(crate) struct Lines {
    notes: Notes,
}

impl Model for Lines {
    ghost use Rattle.mps_notes.specs.declared.notes.Notes.{Notes};

    ghost Value = { Notes };

    ghost view = { λ l. l.notes };
}

impl Lines {
    /// Before the first line.
    pub(crate) fn start(alloc: Global) -> Result<Lines, Memory>
        ensures told { IfOk result (λ lines. told_in lines ≡ told_by []) }
        ensures sound { IfOk result (λ lines. IsSound lines) }
    {
        let notes = Notes::start(alloc)?;
        Ok(Lines { notes })
    }

    /// How many there are.
    pub(crate) fn count(&self) -> u32
        ensures { result ≡ self.now.lines }
    {
        self.notes.lines
    }

    /// Takes the next line, of which `beyond` says whether it has a byte too far into the text. Answers whether it is ENDATA.
    pub(crate) fn take(
        &mut self,
        alloc: Global,
        line: &[u8],
        beyond: bool,
    ) -> Result<bool, LineStop>
        requires sound { IsSound self.old }
        requires few { self.old.lines + 1 < 2 ^ 32 }
        ensures { (at : ℕ) (raw : List ℕ) → line.now ≡ without_return raw → beyond ≡ is_beyond at raw → TakesLine self.old at raw self.new result }
    {
        take_line(alloc, &mut self.notes, line, beyond)
    }

    /// What they tell.
    pub(crate) fn draft(self) -> Draft
        requires { IsSound self }
        ensures { result ≡ told_in self }
    {
        Draft::of(self.notes)
    }
}
