// The form of its parts.

ghost use Rattle.std.specs.Prelude.{◌≡◌};
ghost use Rattle.program_law.specs.Region.{Region};
ghost use Rattle.program_law.specs.Program.{Program};
ghost use Rattle.equational.specs.Made.{IsMade};
ghost use Rattle.equational.specs.Formed.{formed};

use crate::kept::Form;
use crate::objective::Objective;
use equational_rows::{First, Layout, Rows};
use exact_matrix::Matrix;

/// The form with these columns and equations, and with this objective.
pub(crate) fn assembled(
    layout: Layout,
    rows: Rows,
    firsts: Vec<First>,
    objective: Objective,
) -> Form
    requires { (p : Program) × ((region : Region) × IsMade p region layout rows firsts.items objective.quadratic.items objective.cost objective.constant) }
    ensures { (p : Program) (region : Region) → IsMade p region layout rows firsts.items objective.quadratic.items objective.cost objective.constant → result ≡ formed p region }
{
    let width = layout.width();
    let height = rows.len();
    let (entries, right) = rows.into_parts();
    let matrix = Matrix::of_rows(entries, height, width);
    let quadratic = Matrix::of_rows(objective.quadratic, width, width);
    Form {
        matrix,
        right,
        quadratic,
        cost: objective.cost,
        constant: objective.constant,
        bounds: layout.into_bounds(),
        firsts,
    }
}
