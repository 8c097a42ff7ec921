// Verdicts on programs with marked columns.

use crate::tests::programs::PLANT;
use crate::tests::runs::{answers, decides, decides_so};
use qp_engine::Status;
use std::test::Fail;

#[test]
fn bounds_that_are_rounded(rt: HostRuntime) -> Result<(), Fail> {
    let alloc = rt.alloc();
    for (program, certificate) in [
        (
            "ROWS\n N obj\nCOLUMNS\n M 'MARKER' 'INTORG'\n x obj 1\nBOUNDS\n LO B x 0.2\n UP B x 4/5\nENDATA\n",
            "INFEASIBLE\nBRANCH x 0\nCROSS x\nCROSS x\nEND\n",
        ),
        (
            "ROWS\n N obj\nCOLUMNS\n M 'MARKER' 'INTORG'\n x obj 1\nBOUNDS\n LO B x 2\n UP B x 1\nENDATA\n",
            "INFEASIBLE\nCROSS x\nEND\n",
        ),
        (
            "ROWS\n N obj\nCOLUMNS\n M 'MARKER' 'INTORG'\n x obj 1\nBOUNDS\n UP B x 3/2\nENDATA\n",
            "OPTIMAL\nVALUE 0\nBRANCH x 1\nBOUND\nCROSS x\nEND\n",
        ),
        (
            "ROWS\n N obj\nCOLUMNS\n M 'MARKER' 'INTORG'\n x obj 1\nBOUNDS\n LO B x 1/2\n UP B x 7/2\nENDATA\n",
            "OPTIMAL\nVALUE 1\nPOINT x 1\nBRANCH x 0\nCROSS x\nBRANCH x 3\nBOUND\nW x 1\nCROSS x\nEND\n",
        ),
        (
            "ROWS\n N obj\nCOLUMNS\n M 'MARKER' 'INTORG'\n x obj -1\n y obj 1\nBOUNDS\n LO B x -7/2\n UP B x -1/2\n LO B y 1/3\n UP B y 5/3\nENDATA\n",
            "OPTIMAL\nVALUE 2\nPOINT x -1\nPOINT y 1\nBRANCH x -4\nCROSS x\nBRANCH x -1\nBRANCH y 0\nCROSS y\nBRANCH y 1\nBOUND\nW x -1\nW y 1\nCROSS y\nCROSS x\nEND\n",
        ),
    ] {
        assert!(rt;
            decides(alloc, program.as_bytes(), certificate.as_bytes())?,
            "{program}"
        );
    }
    Ok(())
}

#[test]
fn searches_for_the_best_point(rt: HostRuntime) -> Result<(), Fail> {
    let alloc = rt.alloc();
    for (program, certificate) in [
        (
            "ROWS\n N obj\n L c\nCOLUMNS\n M 'MARKER' 'INTORG'\n x obj -1 c 2\nRHS\n RHS c 3\nENDATA\n",
            "OPTIMAL\nVALUE -1\nPOINT x 1\nBRANCH x 1\nBOUND\nW x 1\nFARKAS\nY c -1\nEND\n",
        ),
        (
            "ROWS\n N obj\n E c\nCOLUMNS\n M 'MARKER' 'INTORG'\n x obj 0 c 2\nRHS\n RHS c 1\nENDATA\n",
            "INFEASIBLE\nBRANCH x 0\nFARKAS\nY c 1\nFARKAS\nY c -1\nEND\n",
        ),
        (
            "ROWS\n N obj\nCOLUMNS\n M 'MARKER' 'INTORG'\n x obj -1\nRHS\n RHS obj -1/4\nQUADOBJ\n x x 2\nENDATA\n",
            "OPTIMAL\nVALUE 1/4\nSQUARE 2\nCOEF x 1\nBRANCH x 0\nBOUND\nBOUND\nW x 1\nEND\n",
        ),
        (
            PLANT,
            "OPTIMAL\nVALUE 27/2\nPOINT X 3\nPOINT Y 3/2\nBRANCH X 2\nFARKAS\nY NEED 1\nBOUND\nW X 3\nW Y 3/2\nY NEED 2\nEND\n",
        ),
        (
            "ROWS\n N obj\nCOLUMNS\n M 'MARKER' 'INTORG'\n x obj -3\nQUADOBJ\n x x 2\nENDATA\n",
            "OPTIMAL\nVALUE -2\nPOINT x 1\nSQUARE 2\nCOEF x 1\nBRANCH x 1\nBOUND\nW x 1\nBOUND\nW x 2\nEND\n",
        ),
        (
            "ROWS\n N obj\n L c\nCOLUMNS\n M 'MARKER' 'INTORG'\n x obj 1 c -2\n y obj 1 c -3\nRHS\n RHS c -2\nQUADOBJ\n y y 1\nENDATA\n",
            "OPTIMAL\nVALUE 1\nPOINT x 1\nSQUARE 1\nCOEF y 1\nBRANCH x 0\nBRANCH y 0\nFARKAS\nY c -1\nBOUND\nW y 1\nBOUND\nW x 1\nEND\n",
        ),
        (
            "ROWS\n N obj\n G c\nCOLUMNS\n M 'MARKER' 'INTORG'\n x obj 2 c 2\n y obj -1 c -2\nRHS\n RHS c -3\nBOUNDS\n MI B x\n UP B x 1/2\nENDATA\n",
            "OPTIMAL\nVALUE -2\nPOINT x -1\nBRANCH x 0\nBRANCH x -2\nFARKAS\nY c 1\nBRANCH y 0\nBOUND\nW x -1\nBOUND\nW x -1/2\nW y 1\nY c 1\nCROSS x\nEND\n",
        ),
    ] {
        assert!(rt;
            decides(alloc, program.as_bytes(), certificate.as_bytes())?,
            "{program}"
        );
    }
    Ok(())
}

#[test]
fn searches_for_a_point(rt: HostRuntime) -> Result<(), Fail> {
    let alloc = rt.alloc();
    for (program, certificate) in [
        (
            "ROWS\n N obj\n E c\nCOLUMNS\n x c 2\n y obj -1\nRHS\n RHS c 1\nBOUNDS\n BV B x\nENDATA\n",
            "INFEASIBLE\nBRANCH x 0\nFARKAS\nY c 1\nFARKAS\nY c -1\nEND\n",
        ),
        (
            "ROWS\n N obj\n L c\nCOLUMNS\n M 'MARKER' 'INTORG'\n x obj 0 c 1\n y obj -3 c -3\nBOUNDS\n UP B x 1\nENDATA\n",
            "UNBOUNDED\nRAY y 1/3\nEND\n",
        ),
        (
            "ROWS\n N obj\n L c\nCOLUMNS\n M 'MARKER' 'INTORG'\n x obj -3 c 3\n y obj -3 c -2\nRHS\n RHS c -2\nBOUNDS\n LO B x 1/2\nENDATA\n",
            "UNBOUNDED\nPOINT x 1\nPOINT y 3\nRAY x 2/15\nRAY y 1/5\nEND\n",
        ),
        (
            "ROWS\n N obj\n L c\nCOLUMNS\n M 'MARKER' 'INTORG'\n x obj 2 c 3\nRHS\n RHS c 1\nBOUNDS\n FR B x\nENDATA\n",
            "UNBOUNDED\nRAY x -1/2\nEND\n",
        ),
    ] {
        assert!(rt;
            decides(alloc, program.as_bytes(), certificate.as_bytes())?,
            "{program}"
        );
    }
    Ok(())
}

#[test]
fn convex_programs_with_marks(rt: HostRuntime) -> Result<(), Fail> {
    let alloc = rt.alloc();
    for (program, front) in [
        (
            "ROWS\n N obj\nCOLUMNS\n M 'MARKER' 'INTORG'\n x obj -30\n y obj -4\nRHS\n RHS obj -26\nQUADOBJ\n x x 18\n y y 8\nENDATA\n",
            "OPTIMAL\nVALUE 2\nPOINT x 2\n",
        ),
        (
            "ROWS\n N obj\n E c\nCOLUMNS\n M 'MARKER' 'INTORG'\n x obj -30 c 1\n y obj -4 c 1\nRHS\n RHS obj -26 c 2\nQUADOBJ\n x x 18\n y y 8\nENDATA\n",
            "OPTIMAL\nVALUE 2\nPOINT x 2\nSQUARE 18\nCOEF x 1\nSQUARE 8\nCOEF y 1\nBRANCH x 1\n",
        ),
        (
            "ROWS\n N obj\nCOLUMNS\n M 'MARKER' 'INTORG'\n x obj -5\n y obj -7\nQUADOBJ\n x x 2\n x y 2\n y y 4\nENDATA\n",
            "OPTIMAL\nVALUE -7\nPOINT x 1\nPOINT y 1\nSQUARE 2\nCOEF x 1\nCOEF y 1\nSQUARE 2\nCOEF y 1\nBRANCH x 1\nBRANCH y 1\nBOUND\nW x 1\nW y 1\nBOUND\n",
        ),
    ] {
        assert!(rt; decides_so(alloc, program.as_bytes(), front)?, "{program}");
    }
    Ok(())
}

#[test]
fn a_branch_that_just_fits_the_budget(rt: HostRuntime) -> Result<(), Fail> {
    let alloc = rt.alloc();
    let program =
        "ROWS\n N obj\n E c\nCOLUMNS\n M 'MARKER' 'INTORG'\n x obj 0 c 2\nRHS\n RHS c 1\nENDATA\n";
    let certificate = "INFEASIBLE\nBRANCH x 0\nFARKAS\nY c 1\nFARKAS\nY c -1\nEND\n";
    assert!(rt;
        answers(
            alloc,
            "solve --boxes 1",
            &[program],
            Status::Done,
            certificate
        )?
    );
    Ok(())
}
