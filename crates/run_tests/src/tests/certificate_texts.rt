// Certificate texts that are read and written again, and faults of such texts.

use crate::tests::programs::FIRST;
use crate::tests::runs::answers;
use cert_text::{read_certificate, write_certificate};
use mps_reader::read;
use program_data::Program;
use qp_engine::Status;
use std::alloc::Global;
use std::test::Fail;

fn read_program(alloc: Global, text: &str) -> Option<Program> {
    if text.len() > 1000 {
        return None;
    }
    match read(alloc, text.as_bytes()) {
        Ok((program, _)) => Some(program),
        Err(_) => None,
    }
}

/// Whether a text is read as a certificate with that very text.
fn is_written_again(alloc: Global, p: &Program, text: &str) -> bool {
    if text.len() > 1000 {
        return false;
    }
    match read_certificate(alloc, p, text.as_bytes(), 1) {
        Ok(c) => {
            let mut out = Vec::new(alloc);
            write_certificate(p, &c, &mut out).is_ok() && out.as_slice() == text.as_bytes()
        }
        Err(_) => false,
    }
}

#[test]
fn certificates_are_written_again(rt: HostRuntime) -> Result<(), Fail> {
    let alloc = rt.alloc();
    let Some(p) = read_program(alloc, FIRST) else {
        return Err(Fail::new("not read"));
    };
    for text in [
        "OPTIMAL\nVALUE 8\nPOINT x 2\nPOINT y 3\nSQUARE 2\nCOEF x 1\nSQUARE 8\nCOEF y 1\nBOUND\nW x 2\nW y 3\nY c2 -4\nEND\n",
        "OPTIMAL\nVALUE -1\nPOINT x 1\nBRANCH x 1\nBOUND\nW x 1\nFARKAS\nY c1 -1\nEND\n",
        "INFEASIBLE\nBRANCH x -3\nFARKAS\nY c1 1/2\nCROSS y\nEND\n",
        "UNBOUNDED\nRAY x 1\nEND\n",
        "NOTCONVEX\nVECTOR x 1\nVECTOR y -13/6\nEND\n",
    ] {
        assert!(rt; is_written_again(alloc, &p, text), "{text}");
    }
    Ok(())
}

#[test]
fn faults_of_certificates(rt: HostRuntime) -> Result<(), Fail> {
    let alloc = rt.alloc();
    for (certificate, text) in [
        ("INFEASIBLE\nCROSS x\nEND", "FILE 21 CertEnd\n"),
        ("INFEASIBLE\nCROSS x\n", "FILE 21 CertEnd\n"),
        ("NOTCONVEX\nEND\n\n", "FILE 21 CertAfter\n"),
        ("NOTCONVEX\nEND\nx", "FILE 21 CertAfter\n"),
        ("INFEASIBLE\nFARKAS\nY c2  1\n", "FILE 21 CertLine\n"),
        ("INFEASIBLE\nFARKAS\nY  1\n", "FILE 21 CertLine\n"),
        ("INFEASIBLE\nFARKAS\nY c2 \n", "FILE 21 CertLine\n"),
        ("INFEASIBLE\nCROSS x\nCROSS x\n", "FILE 21 CertLine\n"),
        ("OPTIMAL\nVALUE 1\nEND\n", "FILE 21 CertLine\n"),
        ("INFEASIBLE\nFARKAS\nBOUND\n", "FILE 21 CertLine\n"),
        ("INFEASIBLE\nFARKAS\nY x 1\n", "FILE 21 CertName\n"),
        ("INFEASIBLE\nBRANCH x 1\nCROSS c1\n", "FILE 21 CertName\n"),
        (
            "INFEASIBLE\nFARKAS\nY c1 170141183460469231731687303715884105728/2\n",
            "FILE 21 CertPast\n",
        ),
        ("INFEASIBLE\nFARKAS\nY c2 -0\n", "FILE 21 CertNumber\n"),
        ("INFEASIBLE\nFARKAS\nY c2 007\n", "FILE 21 CertNumber\n"),
        ("INFEASIBLE\nFARKAS\nY c2 0\n", "FILE 21 CertNumber\n"),
        ("OPTIMAL\nVALUE 8\nSQUARE -1\n", "FILE 21 CertNumber\n"),
        (
            "INFEASIBLE\nBRANCH x 1\nBRANCH x 1/2\n",
            "FILE 21 CertNumber\n",
        ),
        (
            "UNBOUNDED\nPOINT x 1\nRAY x 170141183460469231731687303715884105728/1\n",
            "FILE 21 CertNumber\n",
        ),
        ("UNBOUNDED\nPOINT y 2\nPOINT x 2\n", "FILE 21 CertOrder\n"),
    ] {
        let input = [FIRST, certificate];
        assert!(rt;
            answers(alloc, "check", &input, Status::FileRefused, text)?,
            "{certificate}"
        );
    }
    Ok(())
}
