// What `write` writes.

use crate::tests::runs::{answers, answers_by};
use qp_engine::Status;
use std::test::Fail;

#[test]
fn canonical_texts(rt: HostRuntime) -> Result<(), Fail> {
    let alloc = rt.alloc();
    let front =
        "ROWS\n N obj\n E e1\nCOLUMNS\n x obj 1 e1 1\n y e1 1\nRHS\n S e1 5\nRANGES\n S e1 -2\nBOUNDS\n UP S y -1\n";
    let text =
        "NAME\nROWS\n N obj\n G e1\nCOLUMNS\n x obj 1\n x e1 1\n y obj 0\n y e1 1\nRHS\n RHS e1 3\nRANGES\n RNG e1 2\nBOUNDS\n MI BND y\n UP BND y -1\nQUADOBJ\n x x 2\n x y 1\n y y 2\nENDATA\n";
    for quadratic in [
        "QUADOBJ\n x x 2\n y x 1\n y y 2\n",
        "QMATRIX\n x x 2\n x y 1\n y x 1\n y y 2\n",
        "DMATRIX\n x x 1\n x y 1/2\n y x .5\n y y 1.0\n",
    ] {
        assert!(rt;
            answers(
                alloc,
                "write",
                &[front, quadratic, "ENDATA\n"],
                Status::Done,
                text
            )?,
            "{quadratic}"
        );
    }
    assert!(rt;
        answers_by(
            alloc,
            "write",
            &[text, "\n* behind\n"],
            7,
            Status::Done,
            text
        )?
    );
    Ok(())
}

#[test]
fn texts_as_tools_write_them(rt: HostRuntime) -> Result<(), Fail> {
    let alloc = rt.alloc();
    for (input, text) in [
        (
            "ROWS\n N o\n N info\n G e\nCOLUMNS\n x\to 1 e\t2\n* a comment\n\n x info 5 info 6\nRHS\n A e 2 info 3\n B e 7 e 8\nRANGES\n e 4\n A o 1\nBOUNDS\n UP A x -1\n MI x\n UP A x 3\nQMATRIX\n x x 1\nENDATA\n",
            "NAME\nROWS\n N o\n G e\nCOLUMNS\n x o 1\n x e 2\nRHS\n RHS e 2\nRANGES\n RNG e 4\nBOUNDS\n MI BND x\n UP BND x 3\nQUADOBJ\n x x 1\nENDATA\n",
        ),
        (
            "ROWS\n N a234567890b234567890c234567890d234567890e234567890f234567890g234\nCOLUMNS\nENDATA",
            "NAME\nROWS\n N a234567890b234567890c234567890d234567890e234567890f234567890g234\nCOLUMNS\nENDATA\n",
        ),
        (
            "* plan of one week\r\nNAME          PLANT\r\nROWS\r\n N  COST\r\n G  NEED\r\n N  INFO\r\nCOLUMNS\r\n    MARK0001  'MARKER'                 'INTORG'\r\n    X         COST               3.5   NEED               1.0\r\n    X         INFO                 7\r\n    MARK0002  'MARKER'                 'INTEND'\r\n    Y         COST              2e+0   NEED              1.00\r\nRHS\r\n    RHS       NEED               4.5\r\nBOUNDS\r\n UP BOUND     Y                  2.0\r\nENDATA",
            "NAME\nROWS\n N COST\n G NEED\nCOLUMNS\n MARKER 'MARKER' 'INTORG'\n X COST 7/2\n X NEED 1\n MARKER 'MARKER' 'INTEND'\n Y COST 2\n Y NEED 1\nRHS\n RHS NEED 9/2\nBOUNDS\n UP BND Y 2\nENDATA\n",
        ),
        (
            "ROWS\n N obj\n E e\nCOLUMNS\n x e 1\nRHS\n e 5\nRANGES\n e -2\nENDATA\n",
            "NAME\nROWS\n N obj\n G e\nCOLUMNS\n x obj 0\n x e 1\nRHS\n RHS e 3\nRANGES\n RNG e 2\nENDATA\n",
        ),
        (
            "ROWS\n N obj\n E e\nCOLUMNS\n x e 1\nRHS\n e 5\nRANGES\n e 2\nENDATA\n",
            "NAME\nROWS\n N obj\n G e\nCOLUMNS\n x obj 0\n x e 1\nRHS\n RHS e 5\nRANGES\n RNG e 2\nENDATA\n",
        ),
        (
            "ROWS\n N obj\n E e\nCOLUMNS\n x e 1\nRHS\n e 5\nRANGES\n e 0\nENDATA\n",
            "NAME\nROWS\n N obj\n E e\nCOLUMNS\n x obj 0\n x e 1\nRHS\n RHS e 5\nENDATA\n",
        ),
        (
            "ROWS\n N obj\nCOLUMNS\n a obj 1\n b obj 1\n c obj 1\n d obj 1\n e obj 1\nBOUNDS\n UP a -1\n LO b -2\n UP b -1\n BV c\n LI d 3\n UI e 4\nENDATA\n",
            "NAME\nROWS\n N obj\nCOLUMNS\n a obj 1\n b obj 1\n MARKER 'MARKER' 'INTORG'\n c obj 1\n d obj 1\n e obj 1\n MARKER 'MARKER' 'INTEND'\nBOUNDS\n MI BND a\n UP BND a -1\n LO BND b -2\n UP BND b -1\n UP BND c 1\n LO BND d 3\n UP BND e 4\nENDATA\n",
        ),
    ] {
        assert!(rt;
            answers(alloc, "write", &[input], Status::Done, text)?,
            "{input}"
        );
    }
    Ok(())
}
