// Programs that several tests use.

pub(crate) const REFUTED: &str =
    "ROWS\n N obj\n L r1\n G r2\nCOLUMNS\n x r1 1 r2 1\nRHS\n RHS r1 1 r2 2\nENDATA\n";

pub(crate) const REFUTATION: &str = "INFEASIBLE\nFARKAS\nY r1 -1\nY r2 1\nEND\n";

pub(crate) const FIRST: &str =
    "NAME first\nROWS\n N obj\n L c1\n L c2\nCOLUMNS\n x c1 1 c2 -1\n y obj -32 c1 1\n y c2 2\nRHS\n RHS obj -64\n RHS c1 7 c2 4\nBOUNDS\n UP BND y 4\nQUADOBJ\n x x 2\n y y 8\nENDATA\n";

pub(crate) const DECIDED: &str =
    "OPTIMAL\nVALUE 8\nPOINT x 2\nPOINT y 3\nSQUARE 2\nCOEF x 1\nSQUARE 8\nCOEF y 1\nBOUND\nW x 2\nW y 3\nY c2 -4\nEND\n";

pub(crate) const FALLING: &str = "ROWS\n N obj\nCOLUMNS\n x obj -1\nENDATA\n";

/// A file as usual tools write it, with blanks in columns and lines that end with CR and LF.
pub(crate) const PLANT: &str =
    "* plan of one week\r\nNAME          PLANT\r\nROWS\r\n N  COST\r\n G  NEED\r\n N  INFO\r\nCOLUMNS\r\n    MARK0001  'MARKER'                 'INTORG'\r\n    X         COST               3.5   NEED               1.0\r\n    X         INFO                 7\r\n    MARK0002  'MARKER'                 'INTEND'\r\n    Y         COST              2e+0   NEED              1.00\r\nRHS\r\n    RHS       NEED               4.5\r\nBOUNDS\r\n UP BOUND     Y                  2.0\r\nENDATA\r\n";
