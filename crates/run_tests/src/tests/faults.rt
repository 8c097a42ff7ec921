// Programs that are not taken.

use crate::tests::runs::answers;
use qp_engine::Status;
use std::alloc::Global;
use std::test::Fail;

#[test]
fn faults_of_programs(rt: HostRuntime) -> Result<(), Fail> {
    let alloc = rt.alloc();
    for (front, more, text) in [
        ("", "", "FILE 1 NoEnd\n"),
        ("ROWS\n N obj", "", "FILE 3 NoEnd\n"),
        ("ROWS\n L c\nCOLUMNS\n", "", "FILE 3 NoObjective\n"),
        ("ROWS\n N obj\nENDATA\n", "", "FILE 3 SectionOrder\n"),
        ("ROWS\n N obj\n L obj\n", "", "FILE 3 NameTwice\n"),
        (" N obj\n", "", "FILE 1 SectionOrder\n"),
        ("ROWS\n F obj\n", "", "FILE 2 RowKind\n"),
        ("ROWS\n N 'MARKER'\n", "", "FILE 2 Marker\n"),
        ("ROWS\n N o\robj\n", "", "FILE 2 NotAscii\n"),
        (
            "ROWS\n N a234567890b234567890c234567890d234567890e234567890f234567890g2345\n",
            "",
            "FILE 2 NameLong\n",
        ),
        (
            "ROWS\n N obj\nCOLUMNS\n",
            " x obj 170141183460469231731687303715884105728\nENDATA\n",
            "FILE 4 NumberPast\n",
        ),
        (
            "ROWS\n N obj\nCOLUMNS\n",
            " x obj 1 obj 2\nENDATA\n",
            "FILE 4 EntryTwice\n",
        ),
        (
            "ROWS\n N obj\n L c\nCOLUMNS\n x c 1\n",
            "RHS\n R c -170141183460469231731687303715884105727\nRANGES\n R c 1\nENDATA\n",
            "FILE 9 RangePast\n",
        ),
    ] {
        for word in ["write", "solve"] {
            assert!(rt;
                answers(alloc, word, &[front, more], Status::FileRefused, text)?,
                "{text}"
            );
        }
    }
    Ok(())
}

#[test]
fn faults_behind_the_columns(rt: HostRuntime) -> Result<(), Fail> {
    let alloc = rt.alloc();
    let base = "ROWS\n N obj\nCOLUMNS\n x obj 1\n y obj 1\n";
    for (more, text) in [
        ("QSECTION\n", "FILE 6 UnknownSection\n"),
        ("OBJSENSE\n", "FILE 6 MaxSense\n"),
        ("ROWS\n", "FILE 6 SectionOrder\n"),
        (" z obj 1 obj 2\n", "FILE 6 EntryTwice\n"),
        (
            " z obj 170141183460469231731687303715884105728\n",
            "FILE 6 NumberPast\n",
        ),
        (
            " M 'MARKER' 'INTORG'\n M 'MARKER' 'INTORG'\n",
            "FILE 7 Marker\n",
        ),
        ("BOUNDS\n SC B x 4\n", "FILE 7 BoundKind\n"),
        ("QUADOBJ\n x y 1\n y x 1\n", "FILE 8 EntryTwice\n"),
        ("DMATRIX\n x x 1e38\n", "FILE 7 NumberPast\n"),
        ("QMATRIX\n x y 1\nENDATA\n", "FILE 7 NotSymmetric\n"),
        ("RHS\n RHS z 1\n", "FILE 7 NameUnknown\n"),
        ("RHS\n RHS obj 1.2.3\n", "FILE 7 NumberText\n"),
        ("RHS\n RHS\n", "FILE 7 Fields\n"),
        ("ENDATA\nmore", "FILE 7 SectionOrder\n"),
    ] {
        for word in ["write", "solve"] {
            assert!(rt;
                answers(alloc, word, &[base, more], Status::FileRefused, text)?,
                "{text}"
            );
        }
    }
    Ok(())
}

/// A program of so many columns, each on a line of its own.
fn columns_alone(alloc: Global, count: u64) -> Result<String, Fail> {
    let mut text = String::from_str(alloc, "ROWS\n N obj\nCOLUMNS\n")?;
    for k in 0..count {
        let line = format!(in alloc; " x{k} obj 1\n")?;
        text.push_str(&line)?;
    }
    text.push_str("ENDATA\n")?;
    Ok(text)
}

#[test]
fn one_column_too_many(rt: HostRuntime) -> Result<(), Fail> {
    let alloc = rt.alloc();
    let text = columns_alone(alloc, 128)?;
    let least = "OPTIMAL\nVALUE 0\nBOUND\nEND\n";
    assert!(rt; answers(alloc, "solve", &[&text], Status::Done, least)?);
    let text = columns_alone(alloc, 129)?;
    for word in ["solve", "write"] {
        assert!(rt;
            answers(
                alloc,
                word,
                &[&text],
                Status::FileRefused,
                "FILE 132 TooMany\n"
            )?,
            "{word}"
        );
    }
    Ok(())
}

/// A text of so many comments of 64 bytes, and a small program behind them.
fn behind_comments(alloc: Global, comments: u64) -> Result<String, Fail> {
    let mut text = String::new(alloc);
    for _ in 0..comments {
        text.push_str("*23456789a123456789b123456789c123456789d123456789e123456789f123\n")?;
    }
    text.push_str("ROWS\n N o\nCOLUMNS\nENDATA\n")?;
    Ok(text)
}

#[test]
fn texts_that_are_too_long(rt: HostRuntime) -> Result<(), Fail> {
    let alloc = rt.alloc();
    let long = behind_comments(alloc, 16384)?;
    assert!(rt;
        answers(
            alloc,
            "solve",
            &[&long],
            Status::FileRefused,
            "FILE 16385 TextLong\n"
        )?
    );
    let just = behind_comments(alloc, 16383)?;
    let least = "OPTIMAL\nVALUE 0\nBOUND\nEND\n";
    assert!(rt; answers(alloc, "solve", &[&just], Status::Done, least)?);
    Ok(())
}
