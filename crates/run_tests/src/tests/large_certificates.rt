// Certificates at the limits of their text, and deep trees.

use crate::tests::runs::answers;
use qp_engine::Status;
use std::alloc::Global;
use std::test::Fail;

/// Twice a marked column is 1.
const HALF: &str =
    "ROWS\n N obj\n E c\nCOLUMNS\n M 'MARKER' 'INTORG'\n x c 2\nRHS\n RHS c 1\nENDATA\n";

/// 128 times the square of a column, twice.
const SQUARED: &str = "ROWS\n N obj\nCOLUMNS\n x obj 0\nQUADOBJ\n x x 256\nENDATA\n";

const NO_COLUMN: &str = "ROWS\n N obj\n G r\nCOLUMNS\nRHS\n RHS r 1\nENDATA\n";

/// The text, so often.
fn times(alloc: Global, text: &str, count: u64) -> Result<String, Fail> {
    let mut all = String::new(alloc);
    for _ in 0..count {
        all.push_str(text)?;
    }
    Ok(all)
}

/// A tree with so many branches, each but the first on the right of the one before.
fn falling_to_the_right(alloc: Global, branches: u64) -> Result<String, Fail> {
    let mut tree = String::from_str(alloc, "BRANCH x 0\nFARKAS\nY c 1\n")?;
    for k in 1..branches {
        let branch = format!(in alloc; "BRANCH x {k}\nFARKAS\nY c -1\n")?;
        tree.push_str(&branch)?;
    }
    tree.push_str("FARKAS\nY c -1\nEND\n")?;
    Ok(tree)
}

/// A tree with so many branches, each but the first on the left of the one before.
fn falling_to_the_left(alloc: Global, branches: u64) -> Result<String, Fail> {
    let mut tree = String::new(alloc);
    for k in 0..branches {
        let number = branches - 1 - k;
        let branch = format!(in alloc; "BRANCH x {number}\n")?;
        tree.push_str(&branch)?;
    }
    tree.push_str("FARKAS\nY c 1\n")?;
    tree.push_str(&times(alloc, "FARKAS\nY c -1\n", branches)?)?;
    tree.push_str("END\n")?;
    Ok(tree)
}

/// Whether `check` answers this on a tree for the program whose column would be a half.
fn answers_on_a_tree(alloc: Global, tree: &str, status: Status, text: &str) -> Result<bool, Fail> {
    answers(alloc, "check", &[HALF, "INFEASIBLE\n", tree], status, text)
}

#[test]
fn as_many_branches_as_there_may_be(rt: HostRuntime) -> Result<(), Fail> {
    let alloc = rt.alloc();
    let right = falling_to_the_right(alloc, 20256)?;
    assert!(rt; answers_on_a_tree(alloc, &right, Status::Done, "ACCEPTED\n")?);
    let left = falling_to_the_left(alloc, 20256)?;
    assert!(rt; answers_on_a_tree(alloc, &left, Status::Done, "ACCEPTED\n")?);
    Ok(())
}

#[test]
fn one_branch_too_many(rt: HostRuntime) -> Result<(), Fail> {
    let alloc = rt.alloc();
    let tree = falling_to_the_right(alloc, 20257)?;
    assert!(rt; answers_on_a_tree(alloc, &tree, Status::FileRefused, "FILE 60779 CertMany\n")?);
    Ok(())
}

/// Whether `check` answers this on so many squares of one column.
fn answers_on_squares(alloc: Global, count: u64, status: Status, text: &str) -> Result<bool, Fail> {
    let squares = times(alloc, "SQUARE 2\nCOEF x 1\n", count)?;
    answers(
        alloc,
        "check",
        &[SQUARED, "OPTIMAL\nVALUE 0\n", &squares, "BOUND\nEND\n"],
        status,
        text,
    )
}

#[test]
fn squares_up_to_their_limit(rt: HostRuntime) -> Result<(), Fail> {
    let alloc = rt.alloc();
    assert!(rt; answers_on_squares(alloc, 128, Status::Done, "ACCEPTED\n")?);
    assert!(rt; answers_on_squares(alloc, 127, Status::Rejected, "REJECTED 5 1\n")?);
    assert!(rt; answers_on_squares(alloc, 129, Status::FileRefused, "FILE 266 CertMany\n")?);
    Ok(())
}

#[test]
fn certificates_of_programs_without_columns(rt: HostRuntime) -> Result<(), Fail> {
    let alloc = rt.alloc();
    for (certificate, status, text) in [
        (
            "INFEASIBLE\nFARKAS\nY r 1\nEND\n",
            Status::Done,
            "ACCEPTED\n",
        ),
        (
            "OPTIMAL\nVALUE 0\nBOUND\nEND\n",
            Status::Rejected,
            "REJECTED 1 1\n",
        ),
        ("NOTCONVEX\nEND\n", Status::Rejected, "REJECTED 15 0\n"),
    ] {
        assert!(rt;
            answers(alloc, "check", &[NO_COLUMN, certificate], status, text)?,
            "{certificate}"
        );
    }
    Ok(())
}
