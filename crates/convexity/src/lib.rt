//! Squares that sum to the form of a program, or a vector with a negative form.
#![tactic(auto)]

ghost use Rattle.exact_matrix.specs.Stops.{Answers, IsAnswerOf};
ghost use Rattle.convexity.specs.Meaning.{AreFew, HasWidth, IsCurvatureOf};
ghost use Rattle.convexity.specs.Reduction.{curvature_of};
ghost use Rattle.convexity.specs.ReductionCalculation.{squares_of};
ghost use Rattle.convexity.specs.ReductionOperations.{squares_ops};
ghost use Rattle.std.specs.Prelude.{◌≡◌, length, IfOk};

mod laws;
mod reduction;
mod rows;

use crate::reduction::{carry_back, reduce, squares_of};
use exact_matrix::Stop;
use frac_core::{Frac, Vector};
pub use laws::{reduction_ends_with_its_first_refusal, reduction_tells_the_curvature};
use program_data::Program;
use program_law::Squares;
use std::alloc::Global;
use symmetric_half::Half;

/// What is known of a symmetric matrix.
#[derive(Drop)]
pub enum Curvature {
    /// Squares with positive weights, which sum to it.
    Squares(Squares),
    /// A vector with a negative form.
    Negative(Vector<Frac>),
}

fn calculated(alloc: Global, p: &Program) -> Result<Curvature, Stop>
    ensures { Answers (λ c. c) result (squares_of p.now.pairs) }
{
    let mut half = Half::of(alloc, p)?;
    let mut z = Vector::filled(alloc, half.size(), Frac::whole(0))?;
    let mut room = Vec::from_elem(alloc, Frac::whole(0), half.size())?;
    match reduce(&mut half, &mut z, &mut room)? {
        Some(j) => {
            carry_back(&half, j, &mut z)?;
            Ok(Curvature::Negative(z))
        }
        None => {
            let squares = squares_of(alloc, &half)?;
            Ok(Curvature::Squares(squares))
        }
    }
}

/// Squares with positive weights that sum to the form of a program, or a vector with a negative form.
///
/// R starts as the form. For each place j in order, with d the entry of R at j and j: where d is above 0, the square of weight d with
/// the row of j divided by d is taken from R; where the row is 0 there is none; else a vector with a negative form is found, and is
/// carried back over the places before it (Lagrange's reduction).
///
/// # Errors
///
/// `Past` with the first operation of the reduction whose exact result doesn't fit, and `Memory`.
pub fn squares(alloc: Global, p: &Program) -> Result<Curvature, Stop>
    ensures calculation { Answers (λ c. c) result (squares_of p.now.pairs) }
    ensures operations { IsAnswerOf (squares_ops p.now.pairs) result }
    ensures exact { IfOk result (λ c. c ≡ curvature_of p.now.pairs) }
    ensures right { IfOk result (λ c. IsCurvatureOf p.now.pairs c) }
    ensures width { IfOk result (λ c. HasWidth (length p.now.columns) c) }
    ensures few { IfOk result (AreFew (length p.now.columns)) }
{
    let _columns = p.columns();
    calculated(alloc, p)
}
