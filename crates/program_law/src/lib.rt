//! What a program is, its points, their values, and the verdicts on it.
#![tactic(auto)]

ghost use Rattle.std.specs.Prelude.{◌≡◌, ◌↔◌, ◌<◌, ◌∷◌, ◌++◌, [], List, Some, length, slice_get, OnOk, OnErr};
ghost use Rattle.rational.specs.Rational.{ℚ};
ghost use Rattle.program_law.specs.Region.{Region};
ghost use Rattle.program_law.specs.Program.{Program};
ghost use Rattle.program_law.specs.Point.{Point, IsRelaxedIn, IsFeasibleIn};
ghost use Rattle.program_law.specs.Value.{value_of};
ghost use Rattle.program_law.specs.Verdict.{columns_of};
ghost use Rattle.program_law.specs.Columns.{IsRelaxedPoint, IsPoint, value};
ghost use Rattle.program_law.specs.Squares.{AreSquaresOf, IsSemidefinite};
ghost use Rattle.program_law.specs.declared.Square.{Square};

use frac_core::{Frac, Memory, Vector};
use std::alloc::Global;
use std::marker::Model;

/// How many rows a program has at most.
pub const MOST_ROWS: usize = 128;

/// How many columns a program has at most.
pub const MOST_COLUMNS: usize = 128;

/// How many bytes a name has at most.
pub const LONGEST_NAME: usize = 64;

/// A row's low and high side, or a column's low and high bound. Each may be absent.
#[derive(Clone, Copy)]
pub struct Row {
    pub low: Option<Frac>,
    pub high: Option<Frac>,
}

/// A column's bounds, and whether its value is to be whole.
#[derive(Clone, Copy)]
pub struct Column {
    pub low: Option<Frac>,
    pub high: Option<Frac>,
    pub whole: bool,
}

/// The square of a linear form, with a weight.
#[derive(Drop)]
pub struct Square {
    pub weight: Frac,
    pub coef: Vector<Frac>,
}

/// A list of squares.
#[derive(Drop)]
pub struct Squares {
    items: Vec<Square>,
}

impl Model for Squares {
    ghost use Rattle.std.specs.Prelude.{List};
    ghost use Rattle.program_law.specs.declared.Square.{Square};

    ghost Value = { List Square };

    ghost view = { λ s. s.items.items };
}

impl Squares {
    /// No squares.
    pub fn start(alloc: Global) -> Self
        ensures { result ≡ [] }
    {
        Squares {
            items: Vec::new(alloc),
        }
    }

    /// Puts a square last.
    pub fn push(&mut self, square: Square) -> Result<(), Memory>
        ensures ok { OnOk result (self.new ≡ self.old ++ square ∷ []) }
        ensures err { OnErr result (self.new ≡ self.old) }
    {
        self.items.push(square)?;
        Ok(())
    }

    /// The squares, as a slice.
    pub fn as_slice(&self) -> &[Square]
        ensures { result.now ≡ self.now }
    {
        self.items.as_slice()
    }

    /// How many squares there are.
    pub fn len(&self) -> usize
        ensures { result ≡ length self.now }
    {
        self.items.len()
    }

    /// The square at a place.
    pub fn get(&self, k: usize) -> &Square
        requires { k < length self.now }
        ensures { slice_get self.now k ≡ Some result.now }
    {
        &self.items[k]
    }
}

/// A point, whole numbers over a denominator, says the same as its columns, and each list of exact numbers is the
/// columns of a point.
pub fn points_are_their_columns()
    ensures relaxed { (program : Program) (region : Region) (point : Point) →
        IsRelaxedIn program region point ↔ IsRelaxedPoint program region (columns_of point) }
    ensures feasible { (program : Program) (region : Region) (point : Point) →
        IsFeasibleIn program region point ↔ IsPoint program region (columns_of point) }
    ensures value { (program : Program) (point : Point) →
        value_of program point ≡ value program (columns_of point) }
    ensures every { (x : List ℚ) → (point : Point) × (columns_of point ≡ x) }
{}

/// Squares with positive weights sum to a semidefinite form.
pub fn squares_are_semidefinite()
    ensures { (q : List (List ℚ)) (squares : List Square) → AreSquaresOf q squares → IsSemidefinite q }
{}
