// Texts with faults, and bytes that are no names.

use mps_reader::{FaultKind, ReadStop, read};
use program_data::{Name, NameFault};
use std::test::Fail;

/// The most bytes of a text that is tried.
const LONGEST: usize = 2_000_000;

fn has_fault(rt: &HostRuntime, text: &str, at: u32, fault: FaultKind) -> bool {
    if text.len() > LONGEST {
        return false;
    }
    match read(rt.alloc(), text.as_bytes()) {
        Err(ReadStop::Fault { line, kind }) => line == at && kind == fault,
        _ => false,
    }
}

#[test]
fn end_faults(rt: HostRuntime) {
    let range =
        "ROWS\n N obj\n L c\nCOLUMNS\n x c 1\nRHS\n R c -170141183460469231731687303715884105727/1\nRANGES\n R c 1\nENDATA\n";
    assert!(rt; has_fault(&rt, range, 9, FaultKind::RangePast));
}

/// A comment of 64 bytes with its line feed, so often.
fn comments(rt: &HostRuntime, count: u32) -> Result<String, Fail> {
    let mut text = String::new(rt.alloc());
    for _ in 0..count {
        text.push_str("* ............................................................ \n")?;
    }
    Ok(text)
}

/// So many lines behind a text, each with a number.
fn numbered(
    rt: &HostRuntime,
    front: &str,
    before: &str,
    behind: &str,
    count: u32,
) -> Result<String, Fail> {
    let mut text = String::from_str(rt.alloc(), front)?;
    for k in 0..count {
        let line = format!(in rt.alloc(); "{before}{k}{behind}")?;
        text.push_str(line.as_str())?;
    }
    Ok(text)
}

#[test]
fn long_texts(rt: HostRuntime) -> Result<(), Fail> {
    let mut text = comments(&rt, 16_384)?;
    assert!(rt; text.len() == 1_048_576);
    assert!(rt; has_fault(&rt, text.as_str(), 16_385, FaultKind::NoEnd));
    text.push_str("*")?;
    assert!(rt; has_fault(&rt, text.as_str(), 16_385, FaultKind::TextLong));
    Ok(())
}

#[test]
fn many_rows_and_columns(rt: HostRuntime) -> Result<(), Fail> {
    for (count, kind) in [(128, FaultKind::NoEnd), (129, FaultKind::TooMany)] {
        let rows = numbered(&rt, "ROWS\n N obj\n", " L r", "\n", count)?;
        assert!(rt; has_fault(&rt, rows.as_str(), 131, kind));
        let columns = numbered(&rt, "ROWS\n N obj\nCOLUMNS\n", " x", " obj 1\n", count)?;
        assert!(rt; has_fault(&rt, columns.as_str(), 132, kind));
    }
    Ok(())
}

#[test]
fn bad_names(rt: HostRuntime) {
    let long = [b'~'; 65];
    assert!(rt; matches!(Name::of(rt.alloc(), &long), Err(NameFault::Bad)));
    assert!(rt; Name::of(rt.alloc(), &long[..64]).is_ok());
    for text in [b"a ".as_slice(), b"", b"a\x7f"] {
        assert!(rt; matches!(Name::of(rt.alloc(), text), Err(NameFault::Bad)));
    }
}

#[test]
fn words_of_faults(rt: HostRuntime) {
    assert!(rt; FaultKind::TextLong.word() == "TextLong");
    assert!(rt; FaultKind::NotSymmetric.word() == "NotSymmetric");
}
