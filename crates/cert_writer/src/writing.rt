// The text of a certificate.

ghost use Rattle.std.specs.Prelude.{◌≡◌, ◌<◌, ◌≤◌, length, OnOk, OnErr, ◌++◌};
ghost use Rattle.std.specs.List.{flat_map, AllByRecursion};
ghost use Rattle.certificate_law.specs.Fits.{FitsNode, IsColumnVector, IsRowVector};
ghost use Rattle.cert_fields.specs.Appending.{Appends};
ghost use Rattle.cert_fields.specs.Names.{names_on, count_on, name_at};
ghost use Rattle.cert_grammar.specs.Text.{lines_text, entry_line, entry_lines, square_lines, node_lines, end_line, best_lines, ray_lines, certificate_lines, certificate_text};
ghost use Rattle.cert_grammar.specs.Writable.{IsWritable};

use cert_fields::{Axis, count_on, name_on, put_entry, put_name, put_number, put_whole, put_word};
use certificate_law::{Certificate, Node, Tree};
use frac_core::{Frac, Memory, Vector};
use program_data::{Program, Square, Squares};

/// Appends the line of an entry, and nothing where it is 0.
#[tactic(auto, using(crate::proofs::Appended::nothing_more))]
fn write_entry(
    p: &Program,
    axis: Axis,
    word: &[u8],
    place: u32,
    entry: Frac,
    out: &mut Vec<u8>,
    text: &mut String,
) -> Result<(), Memory>
    requires { place < count_on p.now axis }
    ensures { Appends out.old.items out.new.items (lines_text (entry_line word.now (name_at (names_on p.now axis) place) entry)) result }
{
    if entry.is_zero() {
        return Ok(());
    }
    put_entry(out, text, word, name_on(p, axis, place), entry)
}

/// Appends the lines of entries.
fn write_entries(
    p: &Program,
    axis: Axis,
    word: &[u8],
    entries: &Vector<Frac>,
    out: &mut Vec<u8>,
    text: &mut String,
) -> Result<(), Memory>
    requires { length entries.now ≡ count_on p.now axis }
    ensures { Appends out.old.items out.new.items (lines_text (entry_lines word.now (names_on p.now axis) entries.now)) result }
{
    for place in 0..count_on(p, axis) {
        let entry = entries.at(place as usize);
        write_entry(p, axis, word, place, entry, out, text)?;
    }
    Ok(())
}

/// Appends the lines of a square.
fn write_square(
    p: &Program,
    square: &Square,
    out: &mut Vec<u8>,
    text: &mut String,
) -> Result<(), Memory>
    requires { IsColumnVector p.now square.now.coef }
    ensures { Appends out.old.items out.new.items (lines_text (square_lines p.now square.now)) result }
{
    put_number(out, text, b"SQUARE", square.weight)?;
    write_entries(p, Axis::Columns, b"COEF", &square.coef, out, text)
}

/// Appends the lines of squares.
fn write_squares(
    p: &Program,
    squares: &Squares,
    out: &mut Vec<u8>,
    text: &mut String,
) -> Result<(), Memory>
    requires { AllByRecursion (λ s. IsColumnVector p.now s.coef) squares.now }
    ensures { Appends out.old.items out.new.items (lines_text (flat_map (square_lines p.now) squares.now)) result }
{
    for k in 0..squares.len() {
        write_square(p, squares.get(k), out, text)?;
    }
    Ok(())
}

/// Appends the lines of a BOUND leaf.
fn write_bound(
    p: &Program,
    w: &Vector<Frac>,
    y: &Vector<Frac>,
    out: &mut Vec<u8>,
    text: &mut String,
) -> Result<(), Memory>
    requires w { IsColumnVector p.now w.now }
    requires y { IsRowVector p.now y.now }
    ensures { Appends out.old.items out.new.items (lines_text (node_lines p.now (Node.Bound w.now y.now))) result }
{
    put_word(out, b"BOUND")?;
    write_entries(p, Axis::Columns, b"W", w, out, text)?;
    write_entries(p, Axis::Rows, b"Y", y, out, text)
}

/// Appends the lines of a FARKAS leaf.
fn write_farkas(
    p: &Program,
    y: &Vector<Frac>,
    out: &mut Vec<u8>,
    text: &mut String,
) -> Result<(), Memory>
    requires { IsRowVector p.now y.now }
    ensures { Appends out.old.items out.new.items (lines_text (node_lines p.now (Node.Farkas y.now))) result }
{
    put_word(out, b"FARKAS")?;
    write_entries(p, Axis::Rows, b"Y", y, out, text)
}

/// Appends the lines of a node.
fn write_node(p: &Program, node: &Node, out: &mut Vec<u8>, text: &mut String) -> Result<(), Memory>
    requires { FitsNode p.now node.now }
    ensures { Appends out.old.items out.new.items (lines_text (node_lines p.now node.now)) result }
{
    match node {
        Node::Branch(column, k) => {
            put_whole(out, text, b"BRANCH", name_on(p, Axis::Columns, *column), *k)
        }
        Node::Bound(w, y) => write_bound(p, w, y, out, text),
        Node::Farkas(y) => write_farkas(p, y, out, text),
        Node::Cross(column) => put_name(out, b"CROSS", name_on(p, Axis::Columns, *column)),
    }
}

/// Appends the lines of a tree.
fn write_tree(p: &Program, tree: &Tree, out: &mut Vec<u8>, text: &mut String) -> Result<(), Memory>
    requires { AllByRecursion (FitsNode p.now) tree.now }
    ensures { Appends out.old.items out.new.items (lines_text (flat_map (node_lines p.now) tree.now)) result }
{
    for k in 0..tree.len() {
        write_node(p, tree.node(k), out, text)?;
    }
    Ok(())
}

/// Appends the lines of a tree and END.
fn write_tree_to_end(
    p: &Program,
    tree: &Tree,
    out: &mut Vec<u8>,
    text: &mut String,
) -> Result<(), Memory>
    requires { AllByRecursion (FitsNode p.now) tree.now }
    ensures { Appends out.old.items out.new.items (lines_text (flat_map (node_lines p.now) tree.now ++ end_line)) result }
{
    write_tree(p, tree, out, text)?;
    put_word(out, b"END")
}

/// Appends the lines of a point, squares and a tree, and END.
fn write_best(
    p: &Program,
    point: &Vector<Frac>,
    squares: &Squares,
    tree: &Tree,
    out: &mut Vec<u8>,
    text: &mut String,
) -> Result<(), Memory>
    requires point { IsColumnVector p.now point.now }
    requires squares { AllByRecursion (λ s. IsColumnVector p.now s.coef) squares.now }
    requires tree { AllByRecursion (FitsNode p.now) tree.now }
    ensures { Appends out.old.items out.new.items (lines_text (best_lines p.now point.now squares.now tree.now)) result }
{
    write_entries(p, Axis::Columns, b"POINT", point, out, text)?;
    write_squares(p, squares, out, text)?;
    write_tree_to_end(p, tree, out, text)
}

/// Appends the lines of a certificate with a point that is best.
fn write_optimal(
    p: &Program,
    point: &Vector<Frac>,
    value: Frac,
    squares: &Squares,
    tree: &Tree,
    out: &mut Vec<u8>,
    text: &mut String,
) -> Result<(), Memory>
    requires { IsWritable p.now (Certificate.Optimal point.now value squares.now tree.now) }
    ensures { Appends out.old.items out.new.items (lines_text (certificate_lines p.now (Certificate.Optimal point.now value squares.now tree.now))) result }
{
    put_word(out, b"OPTIMAL")?;
    put_number(out, text, b"VALUE", value)?;
    write_best(p, point, squares, tree, out, text)
}

/// Appends the lines of a certificate with a tree that leaves no point.
fn write_infeasible(
    p: &Program,
    tree: &Tree,
    out: &mut Vec<u8>,
    text: &mut String,
) -> Result<(), Memory>
    requires { IsWritable p.now (Certificate.Infeasible tree.now) }
    ensures { Appends out.old.items out.new.items (lines_text (certificate_lines p.now (Certificate.Infeasible tree.now))) result }
{
    put_word(out, b"INFEASIBLE")?;
    write_tree_to_end(p, tree, out, text)
}

/// Appends the lines of a ray and squares, and END.
fn write_ray(
    p: &Program,
    ray: &Vector<Frac>,
    squares: &Squares,
    out: &mut Vec<u8>,
    text: &mut String,
) -> Result<(), Memory>
    requires ray { IsColumnVector p.now ray.now }
    requires squares { AllByRecursion (λ s. IsColumnVector p.now s.coef) squares.now }
    ensures { Appends out.old.items out.new.items (lines_text (ray_lines p.now ray.now squares.now)) result }
{
    write_entries(p, Axis::Columns, b"RAY", ray, out, text)?;
    write_squares(p, squares, out, text)?;
    put_word(out, b"END")
}

/// Appends the lines of a certificate with a ray.
fn write_unbounded(
    p: &Program,
    point: &Vector<Frac>,
    ray: &Vector<Frac>,
    squares: &Squares,
    out: &mut Vec<u8>,
    text: &mut String,
) -> Result<(), Memory>
    requires { IsWritable p.now (Certificate.Unbounded point.now ray.now squares.now) }
    ensures { Appends out.old.items out.new.items (lines_text (certificate_lines p.now (Certificate.Unbounded point.now ray.now squares.now))) result }
{
    put_word(out, b"UNBOUNDED")?;
    write_entries(p, Axis::Columns, b"POINT", point, out, text)?;
    write_ray(p, ray, squares, out, text)
}

/// Appends the lines of a certificate with a vector whose form is negative.
fn write_not_convex(
    p: &Program,
    vector: &Vector<Frac>,
    out: &mut Vec<u8>,
    text: &mut String,
) -> Result<(), Memory>
    requires { IsWritable p.now (Certificate.NotConvex vector.now) }
    ensures { Appends out.old.items out.new.items (lines_text (certificate_lines p.now (Certificate.NotConvex vector.now))) result }
{
    put_word(out, b"NOTCONVEX")?;
    write_entries(p, Axis::Columns, b"VECTOR", vector, out, text)?;
    put_word(out, b"END")
}

/// Appends the lines of a certificate.
fn write_lines(
    p: &Program,
    c: &Certificate,
    out: &mut Vec<u8>,
    text: &mut String,
) -> Result<(), Memory>
    requires { IsWritable p.now c.now }
    ensures { Appends out.old.items out.new.items (lines_text (certificate_lines p.now c.now)) result }
{
    match c {
        Certificate::Optimal(point, value, squares, tree) => {
            write_optimal(p, point, *value, squares, tree, out, text)
        }
        Certificate::Infeasible(tree) => write_infeasible(p, tree, out, text),
        Certificate::Unbounded(point, ray, squares) => {
            write_unbounded(p, point, ray, squares, out, text)
        }
        Certificate::NotConvex(vector) => write_not_convex(p, vector, out, text),
    }
}

/// Appends the text of a certificate, which is the text of no other. Its lengths and columns are to be those of the program, its
/// squares' weights above 0, with at most 128 squares and 20,256 branches.
///
/// # Errors
/// Where memory runs out, `out` is as before.
#[tactic(auto, unfolding(cert_grammar::specs::Text::certificate_text))]
pub fn write_certificate(p: &Program, c: &Certificate, out: &mut Vec<u8>) -> Result<(), Memory>
    requires { IsWritable p.now c.now }
    ensures ok { OnOk result (out.new.items ≡ out.old.items ++ certificate_text p.now c.now) }
    ensures err { OnErr result (out.new.items ≡ out.old.items) }
{
    let start = out.len();
    let mut text = String::new(*out.allocator());
    let written = write_lines(p, c, out, &mut text);
    if written.is_err() {
        out.truncate(start);
    }
    written
}
