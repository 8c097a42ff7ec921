// What `check` answers on a certificate behind its program.

use crate::tests::programs::{FIRST, REFUTATION, REFUTED};
use crate::tests::runs::{answers, answers_by};
use qp_engine::Status;
use std::test::Fail;

const POINT: &str = "POINT x 2\nPOINT y 3\n";

const SQUARES: &str = "SQUARE 2\nCOEF x 1\nSQUARE 8\nCOEF y 1\n";

const LEAF: &str = "BOUND\nW x 2\nW y 3\nY c2 -4\n";

#[test]
fn certificates_of_a_refuted_program(rt: HostRuntime) -> Result<(), Fail> {
    let alloc = rt.alloc();
    let past = "INFEASIBLE\nFARKAS\nY r1 -1\nY r2 170141183460469231731687303715884105727\nEND\n";
    let past_text =
        "WITHHELD PAST\nSITE CHECK\nOP MUL 170141183460469231731687303715884105727 2\nEND\n";
    for (certificate, status, text) in [
        (REFUTATION, Status::Done, "ACCEPTED\n"),
        (
            "\n* kept\nINFEASIBLE\nFARKAS\nY r1 -1\nY r2 1\nEND\n",
            Status::Done,
            "ACCEPTED\n",
        ),
        (
            "INFEASIBLE\nFARKAS\nY r1 -1\nEND\n",
            Status::Rejected,
            "REJECTED 9 1\n",
        ),
        (
            "INFEASIBLE\nFARKAS\nY r1 1\nEND\n",
            Status::Rejected,
            "REJECTED 7 1\n",
        ),
        (past, Status::Withheld, past_text),
        (
            "INFEASIBLE\nFARKAS\nY r1 -1\nY r2 2/4\nEND\n",
            Status::FileRefused,
            "FILE 13 CertNumber\n",
        ),
        (
            "INFEASIBLE\nFARKAS\nY r2 2/4\nEND\n",
            Status::FileRefused,
            "FILE 12 CertNumber\n",
        ),
        (
            "* kept\n \t\r\n\nEND",
            Status::FileRefused,
            "FILE 13 CertEnd\n",
        ),
        ("\n\n", Status::FileRefused, "FILE 12 CertEnd\n"),
        ("", Status::FileRefused, "FILE 10 CertEnd\n"),
    ] {
        for per_read in [1, 7, 4096] {
            assert!(rt;
                answers_by(
                    alloc,
                    "check",
                    &[REFUTED, certificate],
                    per_read,
                    status,
                    text
                )?,
                "{certificate}"
            );
        }
    }
    Ok(())
}

#[test]
fn certificates_of_an_optimal_point(rt: HostRuntime) -> Result<(), Fail> {
    let alloc = rt.alloc();
    for (value, point, squares, tree, status, text) in [
        (
            "VALUE 8\n",
            POINT,
            SQUARES,
            LEAF,
            Status::Done,
            "ACCEPTED\n",
        ),
        (
            "VALUE 7\n",
            POINT,
            SQUARES,
            LEAF,
            Status::Rejected,
            "REJECTED 4 0\n",
        ),
        (
            "VALUE 8\n",
            "POINT x 5\nPOINT y 3\n",
            SQUARES,
            LEAF,
            Status::Rejected,
            "REJECTED 1 1\n",
        ),
        (
            "VALUE 8\n",
            "POINT x 2\nPOINT x 2\nPOINT y 3\n",
            SQUARES,
            LEAF,
            Status::FileRefused,
            "FILE 22 CertOrder\n",
        ),
    ] {
        let input = [FIRST, "OPTIMAL\n", value, point, squares, tree, "END\n"];
        assert!(rt; answers(alloc, "check", &input, status, text)?, "{text}");
    }
    Ok(())
}

#[test]
fn squares_and_trees_of_an_optimal_point(rt: HostRuntime) -> Result<(), Fail> {
    let alloc = rt.alloc();
    for (value, point, squares, tree, status, text) in [
        (
            "VALUE 8\n",
            POINT,
            SQUARES,
            "BOUND\nW x 2\nW y 3\nY c2 -3\n",
            Status::Rejected,
            "REJECTED 8 1\n",
        ),
        (
            "VALUE 8\n",
            POINT,
            "SQUARE 3\nCOEF x 1\nSQUARE 8\nCOEF y 1\n",
            LEAF,
            Status::Rejected,
            "REJECTED 5 1\n",
        ),
        (
            "VALUE 8\n",
            POINT,
            SQUARES,
            "CROSS x\n",
            Status::Rejected,
            "REJECTED 10 1\n",
        ),
        (
            "VALUE 8\n",
            POINT,
            SQUARES,
            "BRANCH x 2\nBOUND\nW x 2\nW y 3\nY c2 -4\nCROSS x\n",
            Status::Rejected,
            "REJECTED 6 1\n",
        ),
    ] {
        let input = [FIRST, "OPTIMAL\n", value, point, squares, tree, "END\n"];
        assert!(rt; answers(alloc, "check", &input, status, text)?, "{text}");
    }
    Ok(())
}

#[test]
fn certificate_without_its_end(rt: HostRuntime) -> Result<(), Fail> {
    let alloc = rt.alloc();
    let cut = [FIRST, "OPTIMAL\nVALUE 8\n", POINT, SQUARES, LEAF];
    assert!(rt;
        answers(
            alloc,
            "check",
            &cut,
            Status::FileRefused,
            "FILE 31 CertEnd\n"
        )?
    );
    Ok(())
}

const FRACTION: &str =
    "ROWS\n N o\nCOLUMNS\n M 'MARKER' 'INTORG'\n x o 0\nBOUNDS\n LO B x 1/5\n UP B x 4/5\nENDATA\n";

const FALLING: &str = "ROWS\n N o\nCOLUMNS\n M 'MARKER' 'INTORG'\n x o -1\nENDATA\n";

const KEPT: &str = "ROWS\n N o\n L a\nCOLUMNS\n x o -1 a 2\nRHS\n R a 3\nENDATA\n";

const CURVED: &str = "ROWS\n N o\nCOLUMNS\n x o -1\nQUADOBJ\n x x 2\nENDATA\n";

const DOWN: &str = "ROWS\n N o\nCOLUMNS\n x o -1\nQUADOBJ\n x x -2\nENDATA\n";

const LARGE: &str =
    "ROWS\n N o\nCOLUMNS\n x o 170141183460469231731687303715884105727\n y o 170141183460469231731687303715884105727\nENDATA\n";

const LARGE_FROM_ONE: &str =
    "ROWS\n N obj\nCOLUMNS\n x obj 170141183460469231731687303715884105727\n y obj 170141183460469231731687303715884105727\nBOUNDS\n LO B x 1\n LO B y 1\nENDATA\n";

const NEXT_PAST: &str =
    "WITHHELD PAST\nSITE CHECK\nOP ADD 170141183460469231731687303715884105727 1\nEND\n";

const SUM_PAST: &str =
    "WITHHELD PAST\nSITE CHECK\nOP ADD 170141183460469231731687303715884105727 170141183460469231731687303715884105727\nEND\n";

const SMALL: &str =
    "ROWS\n N obj\nCOLUMNS\n x obj 0\nQUADOBJ\n x x 1/170141183460469231731687303715884105727\nENDATA\n";

const HALF_PAST: &str =
    "WITHHELD PAST\nSITE CHECK\nOP DIV 1/170141183460469231731687303715884105727 2\nEND\n";

const COSTLY: &str =
    "ROWS\n N obj\n L r\nCOLUMNS\n x obj 170141183460469231731687303715884105727 r 1\nRHS\n R r 1\nENDATA\n";

const RESIDUAL_PAST: &str =
    "WITHHELD PAST\nSITE CHECK\nOP SUB 170141183460469231731687303715884105727 -170141183460469231731687303715884105727\nEND\n";

#[test]
fn certificates_of_trees_of_a_fraction_between(rt: HostRuntime) -> Result<(), Fail> {
    let alloc = rt.alloc();
    for (program, certificate, status, text) in [
        (
            FRACTION,
            "INFEASIBLE\nBRANCH x 0\nCROSS x\nCROSS x\nEND\n",
            Status::Done,
            "ACCEPTED\n",
        ),
        (
            FRACTION,
            "INFEASIBLE\nBRANCH x 1\nCROSS x\nCROSS x\nEND\n",
            Status::Rejected,
            "REJECTED 10 2\n",
        ),
        (
            FRACTION,
            "INFEASIBLE\nBRANCH x 170141183460469231731687303715884105727\nCROSS x\nCROSS x\nEND\n",
            Status::Withheld,
            NEXT_PAST,
        ),
    ] {
        assert!(rt;
            answers(alloc, "check", &[program, certificate], status, text)?,
            "{certificate}"
        );
    }
    Ok(())
}

#[test]
fn certificates_of_rays(rt: HostRuntime) -> Result<(), Fail> {
    let alloc = rt.alloc();
    for (program, certificate, status, text) in [
        (
            FALLING,
            "UNBOUNDED\nRAY x 1\nEND\n",
            Status::Done,
            "ACCEPTED\n",
        ),
        (
            FALLING,
            "UNBOUNDED\nRAY x -1\nEND\n",
            Status::Rejected,
            "REJECTED 12 1\n",
        ),
        (
            FALLING,
            "UNBOUNDED\nEND\n",
            Status::Rejected,
            "REJECTED 14 0\n",
        ),
        (
            KEPT,
            "UNBOUNDED\nRAY x 1\nEND\n",
            Status::Rejected,
            "REJECTED 11 1\n",
        ),
        (
            CURVED,
            "UNBOUNDED\nRAY x 1\nSQUARE 2\nCOEF x 1\nEND\n",
            Status::Rejected,
            "REJECTED 13 1\n",
        ),
    ] {
        assert!(rt;
            answers(alloc, "check", &[program, certificate], status, text)?,
            "{certificate}"
        );
    }
    Ok(())
}

#[test]
fn certificates_of_points_out_of_their_bounds(rt: HostRuntime) -> Result<(), Fail> {
    let alloc = rt.alloc();
    for (program, certificate, status, text) in [
        (
            FALLING,
            "OPTIMAL\nVALUE 0\nPOINT x 3/2\nCROSS x\nEND\n",
            Status::Rejected,
            "REJECTED 3 1\n",
        ),
        (
            FALLING,
            "OPTIMAL\nVALUE 0\nPOINT x -1\nCROSS x\nEND\n",
            Status::Rejected,
            "REJECTED 2 1\n",
        ),
    ] {
        assert!(rt;
            answers(alloc, "check", &[program, certificate], status, text)?,
            "{certificate}"
        );
    }
    Ok(())
}

#[test]
fn certificates_of_vectors(rt: HostRuntime) -> Result<(), Fail> {
    let alloc = rt.alloc();
    for (program, certificate, status, text) in [
        (
            CURVED,
            "NOTCONVEX\nVECTOR x 1\nEND\n",
            Status::Rejected,
            "REJECTED 15 0\n",
        ),
        (
            DOWN,
            "NOTCONVEX\nVECTOR x 1\nEND\n",
            Status::Done,
            "ACCEPTED\n",
        ),
    ] {
        assert!(rt;
            answers(alloc, "check", &[program, certificate], status, text)?,
            "{certificate}"
        );
    }
    Ok(())
}

#[test]
fn certificates_of_values_past_the_limit(rt: HostRuntime) -> Result<(), Fail> {
    let alloc = rt.alloc();
    for (program, certificate, status, text) in [
        (
            LARGE,
            "OPTIMAL\nVALUE 0\nPOINT x 1\nPOINT y 1\nBOUND\nEND\n",
            Status::Withheld,
            SUM_PAST,
        ),
        (
            LARGE_FROM_ONE,
            "OPTIMAL\nVALUE 0\nPOINT x 1\nPOINT y 1\nBOUND\nEND\n",
            Status::Withheld,
            SUM_PAST,
        ),
        (
            SMALL,
            "OPTIMAL\nVALUE 0\nPOINT x 1\nBOUND\nEND\n",
            Status::Withheld,
            HALF_PAST,
        ),
        (
            COSTLY,
            "OPTIMAL\nVALUE 0\nBOUND\nY r -170141183460469231731687303715884105727\nEND\n",
            Status::Withheld,
            RESIDUAL_PAST,
        ),
    ] {
        assert!(rt;
            answers(alloc, "check", &[program, certificate], status, text)?,
            "{certificate}"
        );
    }
    Ok(())
}
