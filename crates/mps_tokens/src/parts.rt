//! The fields of a line, as bytes.

ghost use Rattle.std.specs.Prelude.{◌≡◌, ◌<◌, ◌≤◌, Some, length, min, slice_get, take};
ghost use Rattle.mps_tokens.specs.FieldsOf.{fields_of};

use crate::spans::Fields;
use crate::splitting::fields;
use std::marker::Model;

/// The first six fields of a line.
#[derive(Drop)]
pub struct Parts<'a> {
    line: &'a [u8],
    fields: Fields,
}

impl<'a> Model for Parts<'a> {
    ghost use Rattle.std.specs.Prelude.{List, ℕ, map, take};
    ghost use Rattle.mps_tokens.specs.FieldsOf.{span_of, AreWithin};

    ghost Value = { List (List ℕ) };

    ghost view = { λ p. map (span_of p.line.now) (take p.fields.count p.fields.spans) };

    ghost invariant = { λ p. AreWithin p.line.now p.fields.spans p.fields.count };
}

impl<'a> Parts<'a> {
    /// The fields of a line.
    pub fn of(line: &'a [u8]) -> Self
        ensures { result ≡ take 6 (fields_of line.now) }
    {
        Parts {
            line,
            fields: fields(line),
        }
    }

    /// How many there are, at most six.
    pub fn len(&self) -> usize
        ensures { result ≡ length self.now }
    {
        self.fields.count
    }

    /// The bytes of the k-th field.
    pub fn get(&self, k: usize) -> &'a [u8]
        requires { k < length self.now }
        ensures { slice_get self.now k ≡ Some result.now }
    {
        let (begin, end) = self.fields.at(k);
        &self.line[begin..end]
    }
}
