// What stands before a certificate's tree.

ghost use Rattle.std.specs.Prelude.{◌≡◌, ◌<◌, IfOk, OnOk, All, length};
ghost use Rattle.program_law.specs.Program.{bounds};
ghost use Rattle.program_law.specs.Changes.{zeros};
ghost use Rattle.cert_text_law.specs.Told.{blank, with_coef, with_item};
ghost use Rattle.check_progress.specs.Progress.{head_test, value_for};
ghost use Rattle.check_lines.specs.Fronts.{told, IsFrontOf};

use cert_check_law::Event;
use cert_grammar::{Claim, Item};
use certificate_law::MOST_SQUARES;
use check_nodes::{best_tested, unbounded_tested, vector_tested};
use frac_core::{Frac, Memory, Vector};
use program_data::{Program, Square};
use program_regions::Region;
use std::alloc::Global;

/// What the lines before a certificate's tree tell, and zeros for the squares that may come.
#[derive(Drop)]
pub(crate) struct Front {
    pub claim: Claim,
    pub value: Frac,
    pub point: Vector<Frac>,
    pub ray: Vector<Frac>,
    pub direction: Vector<Frac>,
    pub squares: Vec<Square>,
    pub spare: Vec<Vector<Frac>>,
}

/// A zero for each column or row.
pub(crate) fn zeros(alloc: Global, count: u32) -> Result<Vector<Frac>, Memory>
    ensures { IfOk result (λ v. v ≡ zeros count) }
{
    Vector::filled(alloc, count as usize, Frac::whole(0))
}

/// Zeros for the coefficients of all squares.
fn spare_zeros(alloc: Global, columns: u32) -> Result<Vec<Vector<Frac>>, Memory>
    ensures { IfOk result (λ spare. All (λ v. v ≡ zeros columns) spare.items) }
{
    let mut spare = Vec::with_capacity(alloc, MOST_SQUARES)?;
    for _ in 0..MOST_SQUARES {
        let coef = zeros(alloc, columns)?;
        spare.push(coef)?;
    }
    Ok(spare)
}

impl Front {
    /// Nothing is told.
    pub(crate) fn start(alloc: Global, p: &Program) -> Result<Front, Memory>
        ensures told { IfOk result (λ front. told front ≡ blank (length p.now.columns)) }
        ensures claim { IfOk result (λ front. front.claim ≡ Claim.Infeasible) }
        ensures front { IfOk result (IsFrontOf p.now) }
    {
        let columns = p.columns();
        let point = zeros(alloc, columns)?;
        let ray = zeros(alloc, columns)?;
        let direction = zeros(alloc, columns)?;
        let squares = Vec::with_capacity(alloc, MOST_SQUARES)?;
        let spare = spare_zeros(alloc, columns)?;
        Ok(Front {
            claim: Claim::Infeasible,
            value: Frac::whole(0),
            point,
            ray,
            direction,
            squares,
            spare,
        })
    }

    /// A square is begun.
    ///
    /// # Errors
    /// `Memory` where no zeros are left for it.
    pub(crate) fn begin_square(&mut self, p: &Program, weight: Frac) -> Result<(), Memory>
        requires { IsFrontOf p.now self.old }
        ensures told { OnOk result (told self.new ≡ with_item (length p.now.columns) (length p.now.rows) (Item.Square weight) (told self.old)) }
        ensures claim { OnOk result (self.new.claim ≡ self.old.claim) }
        ensures front { OnOk result (IsFrontOf p.now self.new) }
    {
        let Some(coef) = self.spare.pop() else {
            return Err(Memory);
        };
        self.squares.push(Square { weight, coef })?;
        Ok(())
    }

    /// A coefficient of the last square.
    pub(crate) fn put_coef(&mut self, p: &Program, column: u32, value: Frac)
        requires front { IsFrontOf p.now self.old }
        requires column { column < length p.now.columns }
        ensures told { told self.new ≡ with_item (length p.now.columns) (length p.now.rows) (Item.Coef column value) (told self.old) }
        ensures claim { self.new.claim ≡ self.old.claim }
        ensures front { IsFrontOf p.now self.new }
    {
        let count = self.squares.len();
        if count > 0 {
            put_coef(&mut self.squares[count - 1], column, value);
        }
    }

    /// The tests of what stands before the tree, in the region of the program's bounds.
    ///
    /// # Errors
    /// The first operation that is past or test that fails.
    pub(crate) fn tested(&self, p: &Program, region: &Region) -> Result<(), Event>
        requires front { IsFrontOf p.now self.now }
        requires region { region.now ≡ bounds p.now }
        ensures { result ≡ head_test p.now self.now.claim (told self.now) }
    {
        match self.claim {
            Claim::Optimal => best_tested(p, region, &self.point, self.value, &self.squares),
            Claim::Infeasible => Ok(()),
            Claim::Unbounded => {
                unbounded_tested(p, region, &self.point, &self.ray, &self.squares)
            }
            Claim::NotConvex => vector_tested(p, &self.direction),
        }
    }

    /// The value to which the tree is held.
    pub(crate) fn bound(&self) -> Option<Frac>
        ensures { result ≡ value_for self.now.claim self.now.value }
    {
        match self.claim {
            Claim::Optimal => Some(self.value),
            _ => None,
        }
    }
}

/// Puts a coefficient of a square.
fn put_coef(square: &mut Square, column: u32, value: Frac)
    requires { column < length square.old.coef }
    ensures { square.new ≡ with_coef column value square.old }
{
    square.coef.set(column as usize, value);
}
