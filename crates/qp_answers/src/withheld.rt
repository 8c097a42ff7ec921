//! The texts of verdicts that are withheld.

ghost use Rattle.std.specs.Prelude.{◌≡◌, ◌++◌, IfOk, OnOk, codes, string_bytes};
ghost use Rattle.qp_answers.specs.Withheld.{at_line, at_lines, bases_line, bases_text, basic_line, basic_lines, boxes_text, chain_line, chain_word, check_text, op_word, past_text, site_lines};

use frac_core::{Frac, Memory, Op, Refused, Vector, is_zero};
use quad_solve::{Site, Task};
use std::alloc::Global;

fn op_word(op: Op) -> &'static str
    ensures { result.now ≡ op_word op }
{
    match op {
        Op::Add => "ADD",
        Op::Sub => "SUB",
        Op::Mul => "MUL",
        Op::Div => "DIV",
    }
}

fn chain_word(task: Task) -> &'static str
    ensures { result.now ≡ chain_word task }
{
    match task {
        Task::Feasible => "FEASIBLE",
        Task::Ray => "RAY",
        Task::Price => "PRICE",
    }
}

/// Appends the line for column `n` of a point, where its value isn't 0.
fn push_at_line(alloc: Global, text: &mut Vec<u8>, n: usize, value: Frac) -> Result<(), Memory>
    ensures { OnOk result (text.new.items ≡ text.old.items ++ at_line n value) }
{
    if is_zero(value) {
        return Ok(());
    }
    let line = format!(in alloc; "AT {n} {value}\n")?;
    text.extend_from_slice(line.as_bytes())?;
    Ok(())
}

/// Appends a line for each column of a point whose value isn't 0. Columns are counted from 1 here.
fn push_at_lines(alloc: Global, text: &mut Vec<u8>, at: &Vector<Frac>) -> Result<(), Memory>
    ensures { OnOk result (text.new.items ≡ text.old.items ++ at_lines 1 at.now) }
{
    for k in 0..at.len() {
        push_at_line(alloc, text, k + 1, at.at(k))?;
    }
    Ok(())
}

/// Appends the line of a basic column. Columns are counted from 1 here.
fn push_basic_line(alloc: Global, text: &mut Vec<u8>, column: u32) -> Result<(), Memory>
    ensures { OnOk result (text.new.items ≡ text.old.items ++ basic_line column) }
{
    let n = column as u64 + 1;
    let line = format!(in alloc; "BASIC {n}\n")?;
    text.extend_from_slice(line.as_bytes())?;
    Ok(())
}

/// Appends a line for each column of a basis.
fn push_basic_lines(alloc: Global, text: &mut Vec<u8>, basis: &Vector<u32>) -> Result<(), Memory>
    ensures { OnOk result (text.new.items ≡ text.old.items ++ basic_lines basis.now) }
{
    for k in 0..basis.len() {
        push_basic_line(alloc, text, basis.at(k))?;
    }
    Ok(())
}

/// Appends the line of a chain.
fn push_chain_line(alloc: Global, text: &mut Vec<u8>, task: Task) -> Result<(), Memory>
    ensures { OnOk result (text.new.items ≡ text.old.items ++ chain_line task) }
{
    let word = chain_word(task);
    let line = format!(in alloc; "SITE CHAIN {word}\n")?;
    text.extend_from_slice(line.as_bytes())?;
    Ok(())
}

/// Appends the lines of a chain's basis.
fn push_chain(
    alloc: Global,
    text: &mut Vec<u8>,
    task: Task,
    at: &Vector<Frac>,
    basis: &Vector<u32>,
) -> Result<(), Memory>
    ensures { OnOk result (text.new.items ≡ text.old.items ++ (chain_line task ++ (at_lines 1 at.now ++ basic_lines basis.now))) }
{
    push_chain_line(alloc, text, task)?;
    push_at_lines(alloc, text, at)?;
    push_basic_lines(alloc, text, basis)?;
    Ok(())
}

/// Appends the lines of a point of a walk.
fn push_face(alloc: Global, text: &mut Vec<u8>, at: &Vector<Frac>) -> Result<(), Memory>
    ensures { OnOk result (text.new.items ≡ text.old.items ++ (codes "SITE FACE\n" ++ at_lines 1 at.now)) }
{
    text.extend_from_slice(b"SITE FACE\n")?;
    push_at_lines(alloc, text, at)
}

/// Appends the lines of a site.
fn push_site(alloc: Global, text: &mut Vec<u8>, site: &Site) -> Result<(), Memory>
    ensures { OnOk result (text.new.items ≡ text.old.items ++ site_lines site.now) }
{
    match site {
        Site::Squares => text.extend_from_slice(b"SITE SQUARES\n")?,
        Site::Form => text.extend_from_slice(b"SITE FORM\n")?,
        Site::Chain { task, at, basis } => push_chain(alloc, text, *task, at, basis)?,
        Site::Face { at } => push_face(alloc, text, at)?,
        Site::Check => text.extend_from_slice(b"SITE CHECK\n")?,
    }
    Ok(())
}

/// The text of a verdict that is withheld for an operation, whose exact result doesn't fit, at a site of the region to which the
/// lines of a path lead.
pub(crate) fn past_text(
    alloc: Global,
    path: &[u8],
    site: &Site,
    refused: Refused,
) -> Result<Vec<u8>, Memory>
    ensures { IfOk result (λ v. v.items ≡ past_text path.now site.now refused) }
{
    let Refused { op, left, right } = refused;
    let word = op_word(op);
    let mut text = String::from_str(alloc, "WITHHELD PAST\n")?.into_bytes();
    text.extend_from_slice(path)?;
    push_site(alloc, &mut text, site)?;
    let line = format!(in alloc; "OP {word} {left} {right}\nEND\n")?;
    text.extend_from_slice(line.as_bytes())?;
    Ok(text)
}

/// The first line of a verdict that is withheld for a budget of strict steps.
fn bases_line(alloc: Global, bases: u64) -> Result<Vec<u8>, Memory>
    ensures { IfOk result (λ v. v.items ≡ bases_line bases) }
{
    let line = format!(in alloc; "WITHHELD BASES {bases}\n")?;
    Ok(line.into_bytes())
}

/// The text of a verdict that is withheld for a budget of strict steps, which is used up at a site of the region to which the lines of
/// a path lead.
pub(crate) fn bases_text(
    alloc: Global,
    bases: u64,
    path: &[u8],
    site: &Site,
) -> Result<Vec<u8>, Memory>
    ensures { IfOk result (λ v. v.items ≡ bases_text bases path.now site.now) }
{
    let mut text = bases_line(alloc, bases)?;
    text.extend_from_slice(path)?;
    push_site(alloc, &mut text, site)?;
    text.extend_from_slice(b"END\n")?;
    Ok(text)
}

/// The text of a verdict that is withheld for a budget of branches.
pub(crate) fn boxes_text(alloc: Global, boxes: u64) -> Result<Vec<u8>, Memory>
    ensures { IfOk result (λ v. v.items ≡ boxes_text boxes) }
{
    let text = format!(in alloc; "WITHHELD BOXES {boxes}\nEND\n")?;
    Ok(text.into_bytes())
}

/// The text of a verdict that is withheld for an operation of a check, whose exact result doesn't fit.
pub fn check_text(alloc: Global, refused: Refused) -> Result<Vec<u8>, Memory>
    ensures { IfOk result (λ v. v.items ≡ check_text refused) }
{
    past_text(alloc, b"", &Site::Check, refused)
}
