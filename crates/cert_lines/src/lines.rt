//! A text of a certificate, line by line.

ghost use Rattle.std.specs.Prelude.{◌≡◌, ◌≤◌, ◌^◌, length, IfOk, IfSome};
ghost use Rattle.cert_grammar.specs.Items.{IsWithin};
ghost use Rattle.cert_lines.specs.Lines.{Gives};

use crate::steps::{Step, next_step};
use cert_grammar::{CertFault, Item, Place};
use program_data::Program;
use std::marker::Model;

/// The items of a certificate's text, given one by one. It takes no memory.
#[derive(Drop)]
pub struct CertLines<'a> {
    program: &'a Program,
    text: &'a [u8],
    /// The number of the first line.
    line: u32,
    /// None before the first line.
    place: Option<Place>,
    /// How many lines were given.
    given: u32,
    /// What stands behind them.
    rest: &'a [u8],
}

impl<'a> Model for CertLines<'a> {
    ghost use Rattle.std.specs.Prelude.{◌≤◌, ◌+◌, ◌^◌, length};
    ghost use Rattle.cert_text_law.specs.History.{Follows};
    ghost use Rattle.cert_lines.specs.Lines.{Lines};

    ghost Value = { Lines };

    ghost view = { λ s. record { program = s.program.now; text = s.text.now; line = s.line; given = s.given } };

    ghost invariant = { λ s. Follows s.program.now s.text.now s.line s.given s.rest.now s.place
        × (s.given + length s.rest.now ≤ length s.text.now) × (length s.text.now ≤ 2 ^ 30) × (s.line ≤ 2 ^ 31) };
}

impl<'a> CertLines<'a> {
    /// Before the first line. `line` is its number.
    pub fn start(p: &'a Program, text: &'a [u8], line: u32) -> CertLines<'a>
        requires text { length text.now ≤ 2 ^ 30 }
        requires line { line ≤ 2 ^ 31 }
        ensures { result ≡ record { program = p.now; text = text.now; line = line; given = 0 } }
    {
        CertLines {
            program: p,
            text,
            line,
            place: None,
            given: 0,
            rest: text,
        }
    }

    /// The item of the next line. None behind `END` where nothing follows. After None or a fault each further call answers
    /// the same.
    ///
    /// # Errors
    /// The first line at which the text leaves the grammar, and how.
    pub fn next(&mut self) -> Result<Option<Item>, CertFault>
        ensures gives { Gives self.old self.new result }
        ensures within { IfOk result (λ item. IfSome item (λ item. IsWithin self.old.program item)) }
        ensures room { self.new.given ≤ length self.new.text }
    {
        match next_step(self.program, self.place, self.rest) {
            Ok(Some(Step { item, place, rest })) => {
                self.place = Some(place);
                self.rest = rest;
                self.given += 1;
                Ok(Some(item))
            }
            Ok(None) => Ok(None),
            Err(kind) => {
                let line = self.line + self.given;
                Err(CertFault { line, kind })
            }
        }
    }
}
