// Verdicts that are withheld: with the operation whose result does not fit, or with the budget that is spent.

use crate::tests::runs::{answers, withholds};
use qp_engine::Status;
use std::test::Fail;

#[test]
fn operations_that_do_not_fit(rt: HostRuntime) -> Result<(), Fail> {
    let alloc = rt.alloc();
    for (program, text) in [
        (
            "ROWS\n N obj\nCOLUMNS\n x obj 0\n y obj 0\nQUADOBJ\n x x 3\n x y 170141183460469231731687303715884105727\nENDATA\n",
            "WITHHELD PAST\nSITE SQUARES\nOP MUL 170141183460469231731687303715884105727 170141183460469231731687303715884105727/3\nEND\n",
        ),
        (
            "ROWS\n N obj\nCOLUMNS\n x obj 170141183460469231731687303715884105727\n y obj 170141183460469231731687303715884105727\nBOUNDS\n LO B x 1\n LO B y 1\nENDATA\n",
            "WITHHELD PAST\nSITE FORM\nOP ADD 170141183460469231731687303715884105727 170141183460469231731687303715884105727\nEND\n",
        ),
        (
            "ROWS\n N obj\n E a\n E b\nCOLUMNS\n x a 170141183460469231731687303715884105727 b 1\n y a 1 b 170141183460469231731687303715884105727\nRHS\n RHS a 1 b 1\nENDATA\n",
            "WITHHELD PAST\nSITE CHAIN FEASIBLE\nBASIC 3\nBASIC 4\nOP ADD 170141183460469231731687303715884105727 1\nEND\n",
        ),
        (
            "ROWS\n N obj\n L a\nCOLUMNS\n x obj -170141183460469231731687303715884105727 a 1\nRHS\n R a 1\nENDATA\n",
            "WITHHELD PAST\nSITE CHAIN RAY\nBASIC 3\nBASIC 4\nBASIC 5\nBASIC 6\nOP ADD 1 170141183460469231731687303715884105727\nEND\n",
        ),
        (
            "ROWS\n N obj\nCOLUMNS\n x obj -18446744073709551617\nQUADOBJ\n x x 2\nENDATA\n",
            "WITHHELD PAST\nSITE CHAIN PRICE\nBASIC 1\nOP MUL 1/18446744073709551617 2/18446744073709551617\nEND\n",
        ),
        (
            "ROWS\n N obj\n G a\nCOLUMNS\n x obj 170141183460469231731687303715884105727 a 1\nRHS\n R a 4\nENDATA\n",
            "WITHHELD PAST\nSITE FACE\nAT 1 4\nOP MUL 170141183460469231731687303715884105727 4\nEND\n",
        ),
    ] {
        assert!(rt; withholds(alloc, "solve", program, text)?, "{program}");
    }
    Ok(())
}

#[test]
fn operations_that_do_not_fit_below_a_branch(rt: HostRuntime) -> Result<(), Fail> {
    let alloc = rt.alloc();
    for (program, text) in [
        (
            "ROWS\n N obj\n L a\nCOLUMNS\n M 'MARKER' 'INTORG'\n x obj -2 a 2\nRHS\n R obj 170141183460469231731687303715884105724 a 3\nENDATA\n",
            "WITHHELD PAST\nABOVE x 1\nSITE FORM\nOP ADD -170141183460469231731687303715884105724 -4\nEND\n",
        ),
        (
            "ROWS\n N obj\n L a\nCOLUMNS\n M 'MARKER' 'INTORG'\n x obj -2 a 2\nRHS\n R obj 170141183460469231731687303715884105724 a 3\nBOUNDS\n LO B x 1/2\nENDATA\n",
            "WITHHELD PAST\nABOVE x 0\nABOVE x 1\nSITE FORM\nOP ADD -170141183460469231731687303715884105724 -4\nEND\n",
        ),
        (
            "ROWS\n N obj\n E a\nCOLUMNS\n M 'MARKER' 'INTORG'\n x obj -6/170141183460469231731687303715884105727\n y obj 0\n y a -170141183460469231731687303715884105726\n z obj 1\n z a 10000000000000000051\nRHS\n R a 1\nBOUNDS\n UP B z 1\nENDATA\n",
            "WITHHELD PAST\nBELOW y 0\nSITE CHAIN FEASIBLE\nBASIC 3\nBASIC 7\nBASIC 8\nOP ADD 170141183460469231731687303715884105726/10000000000000000051 1\nEND\n",
        ),
    ] {
        assert!(rt; withholds(alloc, "solve", program, text)?, "{program}");
    }
    Ok(())
}

#[test]
fn a_certificate_that_the_check_can_not_calculate(rt: HostRuntime) -> Result<(), Fail> {
    let alloc = rt.alloc();
    let program =
        "ROWS\n N obj\n G a\nCOLUMNS\n x obj 3 a 1\n w a 1\nRHS\n R a 85070591730234615865843651857942052864\nBOUNDS\n UP B w 85070591730234615865843651857942052863\nENDATA\n";
    let withheld =
        "WITHHELD PAST\nSITE CHECK\nOP MUL 3 85070591730234615865843651857942052864\nEND\n";
    let certificate =
        "OPTIMAL\nVALUE 3\nPOINT x 1\nPOINT w 85070591730234615865843651857942052863\nBOUND\nW x 1\nW w 85070591730234615865843651857942052863\nY a 3\nEND\n";
    let both = format!(in alloc; "{withheld}{certificate}")?;
    assert!(rt; withholds(alloc, "solve", program, &both)?);
    assert!(rt;
        answers(
            alloc,
            "check",
            &[program, certificate],
            Status::Withheld,
            withheld
        )?
    );
    Ok(())
}

#[test]
fn steps_that_are_spent(rt: HostRuntime) -> Result<(), Fail> {
    let alloc = rt.alloc();
    for (words, program, text) in [
        (
            "solve --bases 1",
            "ROWS\n N obj\n E e1\n E e2\nCOLUMNS\n x e1 1\n y e2 1\nRHS\n RHS e1 1 e2 1\nENDATA\n",
            "WITHHELD BASES 1\nSITE CHAIN FEASIBLE\nBASIC 1\nBASIC 4\nEND\n",
        ),
        (
            "solve --bases 1",
            "ROWS\n N obj\nCOLUMNS\n x obj 2\n y obj 2\nBOUNDS\n FR B x\n MI B y\n UP B y 0\nQUADOBJ\n x x 2\n x y 1\n y y 1\nENDATA\n",
            "WITHHELD BASES 1\nSITE FACE\nAT 2 1\nEND\n",
        ),
    ] {
        assert!(rt; withholds(alloc, words, program, text)?, "{program}");
    }
    Ok(())
}

#[test]
fn steps_that_just_fit_the_budget(rt: HostRuntime) -> Result<(), Fail> {
    let alloc = rt.alloc();
    let program =
        "ROWS\n N obj\n E e1\n E e2\nCOLUMNS\n x e1 1\n y e2 1\nRHS\n RHS e1 1 e2 1\nENDATA\n";
    let certificate = "OPTIMAL\nVALUE 0\nPOINT x 1\nPOINT y 1\nBOUND\nW x 1\nW y 1\nEND\n";
    assert!(rt;
        answers(
            alloc,
            "solve --bases 2",
            &[program],
            Status::Done,
            certificate
        )?
    );
    Ok(())
}

#[test]
fn steps_that_are_spent_below_a_branch(rt: HostRuntime) -> Result<(), Fail> {
    let alloc = rt.alloc();
    for (words, program, text) in [
        (
            "solve --bases 1",
            "ROWS\n N obj\nCOLUMNS\n M 'MARKER' 'INTORG'\n x obj -3\nQUADOBJ\n x x 2\nENDATA\n",
            "WITHHELD BASES 1\nBELOW x 1\nSITE CHAIN RAY\nBASIC 3\nBASIC 1\nBASIC 5\nBASIC 6\nEND\n",
        ),
        (
            "solve --bases 1",
            "ROWS\n N obj\nCOLUMNS\n M 'MARKER' 'INTORG'\n x obj -3\nBOUNDS\n LO B x 1/2\nQUADOBJ\n x x 2\nENDATA\n",
            "WITHHELD BASES 1\nABOVE x 0\nBELOW x 1\nSITE CHAIN RAY\nBASIC 3\nBASIC 1\nBASIC 5\nBASIC 6\nEND\n",
        ),
        (
            "solve --bases 1",
            "ROWS\n N obj\n G c\nCOLUMNS\n M 'MARKER' 'INTORG'\n x obj 3 c 2\n y obj -2 c -3\nRHS\n RHS c 3\nBOUNDS\n FR B x\nENDATA\n",
            "WITHHELD BASES 1\nABOVE x 1\nBELOW y 0\nSITE CHAIN FEASIBLE\nBASIC 5\nBASIC 2\nEND\n",
        ),
        (
            "solve --bases 1",
            "ROWS\n N obj\n L c\nCOLUMNS\n M 'MARKER' 'INTORG'\n x obj 0 c -2\nRHS\n RHS c 3\nBOUNDS\n MI B x\n UP B x 1/2\nENDATA\n",
            "WITHHELD BASES 1\nBELOW x 0\nABOVE x -2\nSITE CHAIN FEASIBLE\nBASIC 2\nBASIC 5\nEND\n",
        ),
        (
            "solve --bases 3",
            "ROWS\n N obj\n G c\nCOLUMNS\n M 'MARKER' 'INTORG'\n x obj 3 c 2\nRHS\n RHS c 1\nBOUNDS\n UP B x 2\nQUADOBJ\n x x 2\nENDATA\n",
            "WITHHELD BASES 3\nABOVE x 0\nSITE CHAIN PRICE\nAT 1 1\nAT 2 3\nBASIC 4\nBASIC 3\nBASIC 8\nEND\n",
        ),
        (
            "solve --bases 1",
            "ROWS\n N obj\nCOLUMNS\n M 'MARKER' 'INTORG'\n x obj 2\n y obj 2\nBOUNDS\n FR B x\n MI B y\n UP B y 1/2\nQUADOBJ\n x x 2\n x y 1\n y y 1\nENDATA\n",
            "WITHHELD BASES 1\nBELOW y 0\nSITE FACE\nAT 2 1\nEND\n",
        ),
    ] {
        assert!(rt; withholds(alloc, words, program, text)?, "{program}");
    }
    Ok(())
}

#[test]
fn branches_that_are_spent(rt: HostRuntime) -> Result<(), Fail> {
    let alloc = rt.alloc();
    for (words, program, text) in [
        (
            "solve --boxes 1",
            "ROWS\n N obj\n G c\nCOLUMNS\n M 'MARKER' 'INTORG'\n x obj 3 c 3\n y obj 2 c 3\nRHS\n RHS c 1\nENDATA\n",
            "WITHHELD BOXES 1\nEND\n",
        ),
        (
            "solve --boxes 1",
            "ROWS\n N obj\n G c\nCOLUMNS\n M 'MARKER' 'INTORG'\n x obj -3 c -2\n y obj 1 c 2\nRHS\n RHS c -3\nBOUNDS\n FR B y\nENDATA\n",
            "WITHHELD BOXES 1\nEND\n",
        ),
        (
            "solve --boxes 1",
            "ROWS\n N obj\n E c\nCOLUMNS\n M 'MARKER' 'INTORG'\n x obj 1 c 2\n y c -2\nRHS\n RHS c 1\nENDATA\n",
            "WITHHELD BOXES 1\nEND\n",
        ),
        (
            "solve --boxes 100",
            "ROWS\n N obj\n E c\nCOLUMNS\n M 'MARKER' 'INTORG'\n x obj 1 c 2\n y c -2\nRHS\n RHS c 1\nENDATA\n",
            "WITHHELD BOXES 100\nEND\n",
        ),
    ] {
        assert!(rt; withholds(alloc, words, program, text)?, "{program}");
    }
    Ok(())
}

/// Without a bound below, so the search is for a point alone, which takes less time.
#[test]
fn the_largest_budget_of_branches(rt: HostRuntime) -> Result<(), Fail> {
    let alloc = rt.alloc();
    let program =
        "ROWS\n N obj\n E c\nCOLUMNS\n M 'MARKER' 'INTORG'\n x obj -1 c 2\n y c -2\nRHS\n RHS c 1\nENDATA\n";
    assert!(rt;
        withholds(
            alloc,
            "solve --boxes 20000",
            program,
            "WITHHELD BOXES 20000\nEND\n"
        )?
    );
    Ok(())
}
