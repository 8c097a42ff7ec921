// The tests of a leaf.

ghost use Rattle.std.specs.Prelude.{◌≡◌, ◌<◌, length, IfSome};
ghost use Rattle.rational.specs.Rational.{zero_ℚ};
ghost use Rattle.program_law.specs.Program.{sides};
ghost use Rattle.rational.specs.Vectors.{column};
ghost use Rattle.cert_check_law.specs.Dot.{dot_of};
ghost use Rattle.cert_check_law.specs.Leaf.{with_rows, with_column, with_columns, reaches, leaf_sum, farkas_test, bound_test};
ghost use Rattle.check_parts.specs.Gradients.{gradient_of};

use cert_check_law::Event;
use check_steps::{difference, dot_with, entry, product_added, side_added, sum, tested};
use frac_core::{Frac, Vector};
use program_data::Program;
use program_law::Row;
use program_model::half_form;
use program_regions::Region;

/// The sum, from 0, of each row's multiplier times its side.
fn rows_added(p: &Program, node: u32, y: &Vector<Frac>) -> Result<Frac, Event>
    requires { length y.now ≡ length p.now.rows }
    ensures { result ≡ with_rows node zero_ℚ y.now (sides p.now) }
{
    let mut sum = Frac::whole(0);
    for i in 0..p.rows() {
        sum = side_added(node, sum, entry(y, i as usize), p.row(i))?;
    }
    Ok(sum)
}

/// A column of A times the rows' multipliers.
#[tactic(auto, using(crate::proofs::ColumnLemmas::column_step))]
fn column_dot(p: &Program, j: u32, y: &Vector<Frac>) -> Result<Frac, Event>
    requires rows { length y.now ≡ length p.now.rows }
    requires place { j < length p.now.columns }
    ensures { result ≡ dot_of (column j p.now.entries) y.now }
{
    let mut total = Frac::whole(0);
    for i in 0..p.rows() {
        total = product_added(total, p.entry(i, j), entry(y, i as usize))?;
    }
    Ok(total)
}

/// The gradient at a column: that at the leaf's point, or 0 where it has none.
#[tactic(auto, unfolding(cert_check_law::specs::Leaf::gradient_at))]
fn gradient(p: &Program, w: Option<&Vector<Frac>>, j: u32) -> Result<Frac, Event>
    requires width { IfSome w (λ w. length w.now ≡ length p.now.columns) }
    requires place { j < length p.now.columns }
    ensures { result ≡ gradient_of p.now w.entry j }
{
    let Some(w) = w else {
        return Ok(Frac::whole(0));
    };
    let product = dot_with(p.pairs_of(j), w)?;
    sum(product, p.cost(j))
}

/// The sum with a column's residual times its bound.
#[tactic(auto, unfolding(cert_check_law::specs::Leaf::with_column))]
fn column_added(
    p: &Program,
    node: u32,
    w: Option<&Vector<Frac>>,
    y: &Vector<Frac>,
    j: u32,
    total: Frac,
    bounds: Row,
) -> Result<Frac, Event>
    requires rows { length y.now ≡ length p.now.rows }
    requires width { IfSome w (λ w. length w.now ≡ length p.now.columns) }
    requires place { j < length p.now.columns }
    ensures { result ≡ with_column node (gradient_of p.now w.entry) p.now.entries y.now j total bounds }
{
    let gradient = gradient(p, w, j)?;
    let product = column_dot(p, j, y)?;
    let residual = difference(gradient, product)?;
    side_added(node, total, residual, bounds)
}

/// The sum with all columns.
fn columns_added(
    p: &Program,
    node: u32,
    region: &Region,
    w: Option<&Vector<Frac>>,
    y: &Vector<Frac>,
    total: Frac,
) -> Result<Frac, Event>
    requires rows { length y.now ≡ length p.now.rows }
    requires width { IfSome w (λ w. length w.now ≡ length p.now.columns) }
    requires region { length region.now ≡ length p.now.columns }
    ensures { result ≡ with_columns node (gradient_of p.now w.entry) p.now.entries y.now 0 total region.now }
{
    let mut sum = total;
    for j in 0..p.columns() {
        sum = column_added(p, node, w, y, j, sum, region.at(j))?;
    }
    Ok(sum)
}

#[tactic(auto, unfolding(cert_check_law::specs::Leaf::leaf_sum))]
fn leaf_sum(
    p: &Program,
    node: u32,
    region: &Region,
    w: Option<&Vector<Frac>>,
    y: &Vector<Frac>,
) -> Result<Frac, Event>
    requires rows { length y.now ≡ length p.now.rows }
    requires width { IfSome w (λ w. length w.now ≡ length p.now.columns) }
    requires region { length region.now ≡ length p.now.columns }
    ensures { result ≡ leaf_sum p.now node (gradient_of p.now w.entry) region.now y.now }
{
    let rows = rows_added(p, node, y)?;
    columns_added(p, node, region, w, y, rows)
}

/// The test of a FARKAS leaf in a region: by its multipliers no point is there.
///
/// # Errors
/// The first event of the calculation: an operation that is past, or the test that fails, with the number of the node.
#[tactic(auto, unfolding(cert_check_law::specs::Leaf::farkas_test))]
pub fn farkas_tested(p: &Program, node: u32, region: &Region, y: &Vector<Frac>) -> Result<(), Event>
    requires rows { length y.now ≡ length p.now.rows }
    requires region { length region.now ≡ length p.now.columns }
    ensures { result ≡ farkas_test p.now node region.now y.now }
{
    let sum = leaf_sum(p, node, region, None, y)?;
    tested(sum.is_positive(), 9, node)
}

/// Whether a number is at least the value. Where there is no value none is.
fn reaches(v: &Option<Frac>, low: Frac) -> bool
    ensures { result ≡ reaches v.now low }
{
    match v {
        None => false,
        Some(v) => v.at_most(low),
    }
}

/// The test of a BOUND leaf in a region: by its point `w` and its multipliers `y` no point there has a value below `v`. Without a
/// value it fails.
///
/// # Errors
/// The first event of the calculation: an operation that is past, or the test that fails, with the number of the node.
#[tactic(auto, unfolding(cert_check_law::specs::Leaf::bound_test))]
pub fn bound_tested(
    p: &Program,
    v: &Option<Frac>,
    node: u32,
    region: &Region,
    w: &Vector<Frac>,
    y: &Vector<Frac>,
) -> Result<(), Event>
    requires rows { length y.now ≡ length p.now.rows }
    requires width { length w.now ≡ length p.now.columns }
    requires region { length region.now ≡ length p.now.columns }
    ensures { result ≡ bound_test p.now v.now node region.now w.now y.now }
{
    let sides = leaf_sum(p, node, region, Some(w), y)?;
    let half = half_form(p, w)?;
    let rest = difference(p.constant(), half)?;
    let low = sum(rest, sides)?;
    tested(reaches(v, low), 8, node)
}
