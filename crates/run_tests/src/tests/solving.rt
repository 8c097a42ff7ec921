// Verdicts on programs without marked columns.

use crate::tests::programs::{DECIDED, FALLING, FIRST, REFUTATION, REFUTED};
use crate::tests::runs::decides;
use std::test::Fail;

#[test]
fn programs_that_are_not_convex(rt: HostRuntime) -> Result<(), Fail> {
    let alloc = rt.alloc();
    for (program, certificate) in [
        (
            "ROWS\n N obj\nCOLUMNS\n x obj 0\n y obj 0\nQUADOBJ\n y x 1\nENDATA\n",
            "NOTCONVEX\nVECTOR x 1\nVECTOR y -1\nEND\n",
        ),
        (
            "ROWS\n N obj\nCOLUMNS\n x obj 0\n y obj 0\nQUADOBJ\n x x 1\n x y 2\n y y 1\nENDATA\n",
            "NOTCONVEX\nVECTOR x -2\nVECTOR y 1\nEND\n",
        ),
        (
            "ROWS\n N obj\nCOLUMNS\n x obj 0\n y obj 0\nQUADOBJ\n x y 1\n y y 2\nENDATA\n",
            "NOTCONVEX\nVECTOR x 1\nVECTOR y -1/2\nEND\n",
        ),
        (
            "ROWS\n N obj\n L r1\n G r2\nCOLUMNS\n x r1 1 r2 1\nRHS\n RHS r1 1 r2 2\nQUADOBJ\n x x -1\nENDATA\n",
            "NOTCONVEX\nVECTOR x 1\nEND\n",
        ),
    ] {
        assert!(rt;
            decides(alloc, program.as_bytes(), certificate.as_bytes())?,
            "{program}"
        );
    }
    Ok(())
}

#[test]
fn programs_without_points(rt: HostRuntime) -> Result<(), Fail> {
    let alloc = rt.alloc();
    for (program, certificate) in [
        (REFUTED, REFUTATION),
        (
            "ROWS\n N obj\nCOLUMNS\n x obj 1\nBOUNDS\n LO B x 2\n UP B x 1\nENDATA\n",
            "INFEASIBLE\nCROSS x\nEND\n",
        ),
        (
            "ROWS\n N obj\nCOLUMNS\n x obj 1\n y obj 1\nBOUNDS\n LO B x 1\n UP B x 0\n LO B y 2\n UP B y 1\nENDATA\n",
            "INFEASIBLE\nCROSS x\nEND\n",
        ),
    ] {
        assert!(rt;
            decides(alloc, program.as_bytes(), certificate.as_bytes())?,
            "{program}"
        );
    }
    Ok(())
}

#[test]
fn programs_with_a_best_point(rt: HostRuntime) -> Result<(), Fail> {
    let alloc = rt.alloc();
    for (program, certificate) in [
        (FIRST, DECIDED),
        (
            "ROWS\n N risk\n E budget\n G gain\nCOLUMNS\n a budget 1 gain 10\n b budget 1 gain 6\n c budget 1 gain 4\nRHS\n RHS budget 1 gain 7\nDMATRIX\n a a 4\n b b 2\n c c 1\nENDATA\n",
            "OPTIMAL\nVALUE 47/52\nPOINT a 5/13\nPOINT b 9/26\nPOINT c 7/26\nSQUARE 8\nCOEF a 1\nSQUARE 4\nCOEF b 1\nSQUARE 2\nCOEF c 1\nBOUND\nW a 5/13\nW b 9/26\nW c 7/26\nY budget -15/13\nY gain 11/26\nEND\n",
        ),
        (
            "ROWS\n N obj\n L r1\n L r2\n L r3\nCOLUMNS\n x1 obj -3/4 r1 1/4\n x1 r2 1/2\n x2 obj 20 r1 -8\n x2 r2 -12\n x3 obj -1/2 r1 -1\n x3 r2 -1/2 r3 1\n x4 obj 6 r1 9\n x4 r2 3\nRHS\n RHS r3 1\nENDATA\n",
            "OPTIMAL\nVALUE -5/4\nPOINT x1 1\nPOINT x3 1\nBOUND\nW x1 1\nW x3 1\nY r2 -3/2\nY r3 -5/4\nEND\n",
        ),
        (
            "ROWS\n N obj\nCOLUMNS\n x obj -4\n y obj -4\nRHS\n RHS obj -4\nQUADOBJ\n x x 2\n x y 2\n y y 2\nENDATA\n",
            "OPTIMAL\nVALUE 0\nPOINT x 2\nSQUARE 2\nCOEF x 1\nCOEF y 1\nBOUND\nW x 2\nEND\n",
        ),
        (
            "ROWS\n N obj\nCOLUMNS\n x obj 0\n y obj 0\nQUADOBJ\n x x 3\n y y 1\nENDATA\n",
            "OPTIMAL\nVALUE 0\nSQUARE 3\nCOEF x 1\nSQUARE 1\nCOEF y 1\nBOUND\nEND\n",
        ),
        (
            "ROWS\n N obj\nCOLUMNS\n x obj 1\nENDATA\n",
            "OPTIMAL\nVALUE 0\nBOUND\nEND\n",
        ),
        (
            "ROWS\n N obj\nCOLUMNS\n x obj 170141183460469231731687303715884105727\nENDATA\n",
            "OPTIMAL\nVALUE 0\nBOUND\nEND\n",
        ),
    ] {
        assert!(rt;
            decides(alloc, program.as_bytes(), certificate.as_bytes())?,
            "{program}"
        );
    }
    Ok(())
}

#[test]
fn programs_without_a_bound(rt: HostRuntime) -> Result<(), Fail> {
    let alloc = rt.alloc();
    for (program, certificate) in [
        (FALLING, "UNBOUNDED\nRAY x 1\nEND\n"),
        (
            "ROWS\n N obj\nCOLUMNS\n x obj -2\nENDATA\n",
            "UNBOUNDED\nRAY x 1/2\nEND\n",
        ),
    ] {
        assert!(rt;
            decides(alloc, program.as_bytes(), certificate.as_bytes())?,
            "{program}"
        );
    }
    Ok(())
}
