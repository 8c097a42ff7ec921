//! The numbers of a certificate are small: each of them says so when it is read. These functions do nothing else.

ghost use Rattle.std.specs.Prelude.{◌≡◌, ◌≢◌, ◌≤◌, ◌^◌, neg_ℤ, pos, unsigned_abs};
ghost use Rattle.std.specs.List.{AllByRecursion};
ghost use Rattle.rational.specs.Rational.{Fits};
ghost use Rattle.frac_core.specs.Parts.{max_part};
ghost use Rattle.certificate_law.specs.Fits.{FitsNode};
ghost use Rattle.cert_grammar.specs.Writable.{AllFit, SquareFits, NodeFits, NumbersFit, IsWritable};

use certificate_law::{Certificate, Node, Tree};
use frac_core::{Frac, Vector};
use program_data::Program;
use program_law::Squares;

/// Shows that a number is small.
fn show_number(number: Frac)
    ensures { Fits max_part number }
{
    let _num = number.num();
    let _den = number.den();
}

/// Shows that those of a list are.
fn show_list(numbers: &Vector<Frac>)
    ensures { AllFit numbers.now }
{
    for k in 0..numbers.len() {
        show_number(numbers.at(k));
    }
}

/// Shows that those of squares are.
fn show_squares(squares: &Squares)
    ensures { AllByRecursion SquareFits squares.now }
{
    for k in 0..squares.len() {
        let square = squares.get(k);
        show_number(square.weight);
        show_list(&square.coef);
    }
}

/// Shows that the number of a branch is.
fn show_branch(number: i128)
    requires { number ≢ neg_ℤ (pos (2 ^ 127)) }
    ensures { unsigned_abs number ≤ max_part }
{}

/// Shows that those of a node are.
fn show_node(p: &Program, node: &Node)
    requires { FitsNode p.now node.now }
    ensures { NodeFits node.now }
{
    match node {
        Node::Branch(_, number) => show_branch(*number),
        Node::Bound(point, multipliers) => {
            show_list(point);
            show_list(multipliers);
        }
        Node::Farkas(multipliers) => show_list(multipliers),
        Node::Cross(_) => {}
    }
}

/// Shows that those of a tree are.
fn show_tree(p: &Program, tree: &Tree)
    requires { AllByRecursion (FitsNode p.now) tree.now }
    ensures { AllByRecursion NodeFits tree.now }
{
    for k in 0..tree.len() {
        show_node(p, tree.node(k));
    }
}

/// Shows that those of a certificate are, whose text is then read as it again.
pub fn show_numbers(p: &Program, certificate: &Certificate)
    requires { IsWritable p.now certificate.now }
    ensures { NumbersFit certificate.now }
{
    match certificate {
        Certificate::Optimal(point, value, squares, tree) => {
            show_list(point);
            show_number(*value);
            show_squares(squares);
            show_tree(p, tree);
        }
        Certificate::Infeasible(tree) => show_tree(p, tree),
        Certificate::Unbounded(point, ray, squares) => {
            show_list(point);
            show_list(ray);
            show_squares(squares);
        }
        Certificate::NotConvex(vector) => show_list(vector),
    }
}
