// A form as it is kept, and the ways back from it.

ghost use Rattle.std.specs.Prelude.{◌≡◌, length, IfOk};
ghost use Rattle.frac_core.specs.Parts.{max_part};
ghost use Rattle.program_law.specs.Region.{Region};
ghost use Rattle.program_law.specs.Program.{Program, IsProgram};
ghost use Rattle.equational_law.specs.Solutions.{IsForm};
ghost use Rattle.rational.specs.Vectors.{IsSymmetric};
ghost use Rattle.equational_law.specs.Form.{direction_of, multipliers_of, point_of};
ghost use Rattle.equational_law.specs.Calculation.{point_in, point_ops, ray_in, ray_ops};
ghost use Rattle.exact_matrix.specs.Stops.{Answers, IsAnswerOf};
ghost use Rattle.equational.specs.Formed.{formed};

use crate::back::{Carried, columns_back, rows_back};
use equational_rows::First;
use exact_matrix::{Matrix, Stop};
use frac_core::{Frac, Memory, Vector};
use program_law::Row;
use std::alloc::Global;
use std::marker::Model;

/// The equational form of a program in a region: minimise `½ z^T Q z + c·z + c0` where `M z = r` and z is not below 0; with how its
/// columns and equations came from the program and the region.
#[derive(Drop)]
pub struct Form {
    /// M, equations by columns of the form.
    pub(crate) matrix: Matrix<Frac>,
    /// r, a number for each equation, none below 0.
    pub(crate) right: Vector<Frac>,
    /// Q, columns by columns of the form.
    pub(crate) quadratic: Matrix<Frac>,
    /// c, a number for each column of the form.
    pub(crate) cost: Vector<Frac>,
    /// c0.
    pub(crate) constant: Frac,
    /// The region's bounds of each column of the file.
    pub(crate) bounds: Vec<Row>,
    /// For each row of the file its first equation.
    pub(crate) firsts: Vec<First>,
}

impl Model for Form {
    ghost use Rattle.std.specs.Prelude.{length};
    ghost use Rattle.equational.specs.Formed.{Formed, IsKept};

    ghost Value = { Formed };

    ghost view = { λ f. record {
      form = record { matrix = f.matrix.rows; right = f.right; quadratic = f.quadratic.rows; cost = f.cost; constant = f.constant };
      region = f.bounds.items;
      firsts = f.firsts.items;
    } };

    ghost invariant = { λ f. IsKept f.matrix.columns f.quadratic.columns f.bounds.items f.firsts.items (record { matrix = f.matrix.rows; right = f.right; quadratic = f.quadratic.rows; cost = f.cost; constant = f.constant }) };
}

impl Form {
    /// M: a row for each equation, over the form's columns.
    pub fn matrix(&self) -> &Matrix<Frac>
        ensures rows { result.now.rows ≡ self.now.form.matrix }
        ensures columns { result.now.columns ≡ length self.now.form.cost }
        ensures form { IsForm (length self.now.form.cost) self.now.form }
    {
        &self.matrix
    }

    /// r, the right side of each equation. None is below 0.
    pub fn right(&self) -> &Vector<Frac>
        ensures { result.now ≡ self.now.form.right }
    {
        &self.right
    }

    /// Q, symmetric, over the form's columns.
    pub fn quadratic(&self) -> &Matrix<Frac>
        ensures rows { result.now.rows ≡ self.now.form.quadratic }
        ensures columns { result.now.columns ≡ length self.now.form.cost }
        ensures symmetric { IsSymmetric (length self.now.form.cost) self.now.form.quadratic }
    {
        &self.quadratic
    }

    /// c, the cost of each column.
    pub fn cost(&self) -> &Vector<Frac>
        ensures { result.now ≡ self.now.form.cost }
    {
        &self.cost
    }

    /// c0.
    pub fn constant(&self) -> Frac
        ensures { result ≡ self.now.form.constant }
    {
        self.constant
    }

    /// The point of a solution, over the file's columns: `h + z` at a column with a low bound, `h - z` at one with a high bound alone,
    /// and `z - z'` at one without bounds.
    ///
    /// # Errors
    ///
    /// `Past` with the first of these operations whose exact result doesn't fit, and `Memory`.
    pub fn point_back(&self, alloc: Global, z: &Vector<Frac>) -> Result<Vector<Frac>, Stop>
        requires { length z.now ≡ length self.now.form.cost }
        ensures calculation { Answers (λ x. x) result (point_in max_part self.now.region z.now) }
        ensures operations { IsAnswerOf (point_ops self.now.region z.now) result }
        ensures exact { IfOk result (λ x. x ≡ point_of self.now.region z.now) }
    {
        columns_back(alloc, Carried::Point, &self.bounds, z)
    }

    /// The direction of a ray, over the file's columns: `d`, `-d`, or `d - d'`.
    ///
    /// # Errors
    ///
    /// `Past` with the first of these operations whose exact result doesn't fit, and `Memory`.
    pub fn ray_back(&self, alloc: Global, d: &Vector<Frac>) -> Result<Vector<Frac>, Stop>
        requires { length d.now ≡ length self.now.form.cost }
        ensures calculation { Answers (λ x. x) result (ray_in max_part self.now.region d.now) }
        ensures operations { IsAnswerOf (ray_ops self.now.region d.now) result }
        ensures exact { IfOk result (λ x. x ≡ direction_of self.now.region d.now) }
    {
        columns_back(alloc, Carried::Direction, &self.bounds, d)
    }

    /// The multipliers of the file's rows: of each row that of its first equation, negated where that equation was.
    pub fn multipliers_back(&self, alloc: Global, y: &Vector<Frac>) -> Result<Vector<Frac>, Memory>
        requires { length y.now ≡ length self.now.form.right }
        ensures { IfOk result (λ ys. (p : Program) (region : Region) → IsProgram p → self.now ≡ formed p region →
            ys ≡ multipliers_of p region y.now) }
    {
        rows_back(alloc, &self.firsts, y)
    }
}
