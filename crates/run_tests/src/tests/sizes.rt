// Verdicts on larger programs, whose texts are made by lines that repeat.

use crate::tests::runs::{decides, decides_so};
use std::alloc::Global;
use std::test::Fail;

/// A line for each number from 1 to `count`: the pattern with the number in the place of `#`, and the next one, after the last
/// the first again, in the place of `@`.
fn lines(alloc: Global, count: u64, pattern: &str) -> Result<String, Fail> {
    let mut text = String::new(alloc);
    for k in 0..count {
        let place = k + 1;
        let number = format!(in alloc; "{place}")?;
        let following = if k + 1 == count { 1 } else { k + 2 };
        let next = format!(in alloc; "{following}")?;
        let line = pattern.replace(alloc, "#", &number)?;
        text.push_str(&line.replace(alloc, "@", &next)?)?;
    }
    Ok(text)
}

/// Whole lines, and between them lines that repeat.
fn repeated(alloc: Global, count: u64, parts: &[(&str, &str)]) -> Result<String, Fail> {
    let mut text = String::new(alloc);
    for (pattern, line) in parts {
        text.push_str(&lines(alloc, count, pattern)?)?;
        text.push_str(line)?;
    }
    Ok(text)
}

/// Whether `solve` writes on a program a certificate, both with lines that repeat so often, and `check` accepts it.
fn decides_repeated(
    alloc: Global,
    count: u64,
    program: &[(&str, &str)],
    certificate: &[(&str, &str)],
) -> Result<bool, Fail> {
    let program = repeated(alloc, count, program)?;
    let certificate = repeated(alloc, count, certificate)?;
    decides(alloc, program.as_bytes(), certificate.as_bytes())
}

#[test]
fn twenty_rows_with_a_best_point(rt: HostRuntime) -> Result<(), Fail> {
    let program = [
        ("", "ROWS\n N obj\n"),
        (" G r#\n", "COLUMNS\n"),
        (" x# r# 1\n", "RHS\n"),
        (" R r# #\n", "QUADOBJ\n"),
        (" x# x# 1\n", "ENDATA\n"),
    ];
    let certificate = [
        ("", "OPTIMAL\nVALUE 1435\n"),
        ("POINT x# #\n", ""),
        ("SQUARE 1\nCOEF x# 1\n", "BOUND\n"),
        ("W x# #\n", ""),
        ("Y r# #\n", "END\n"),
    ];
    assert!(rt; decides_repeated(rt.alloc(), 20, &program, &certificate)?);
    Ok(())
}

/// Each column is above the next by 1, and the last above the first.
#[test]
fn twenty_rows_without_a_point(rt: HostRuntime) -> Result<(), Fail> {
    let program = [
        ("", "ROWS\n N obj\n"),
        (" G r#\n", "COLUMNS\n"),
        (" x# obj 1 r# 1\n", ""),
        (" x@ r# -1\n", "RHS\n"),
        (" R r# 1\n", "ENDATA\n"),
    ];
    let certificate = [("", "INFEASIBLE\nFARKAS\n"), ("Y r# 1\n", "END\n")];
    assert!(rt; decides_repeated(rt.alloc(), 20, &program, &certificate)?);
    Ok(())
}

/// No column is above the next, nor the last above the first, so all rise together.
#[test]
fn twenty_rows_without_a_bound(rt: HostRuntime) -> Result<(), Fail> {
    let program = [
        ("", "ROWS\n N obj\n"),
        (" L r#\n", "COLUMNS\n"),
        (" x# obj -1 r# 1\n", ""),
        (" x@ r# -1\n", "ENDATA\n"),
    ];
    let certificate = [("", "UNBOUNDED\n"), ("RAY x# 1/20\n", "END\n")];
    assert!(rt; decides_repeated(rt.alloc(), 20, &program, &certificate)?);
    Ok(())
}

/// The squares of the first columns take away all of the square of the column before the last.
#[test]
fn twenty_columns_that_are_not_convex(rt: HostRuntime) -> Result<(), Fail> {
    let program = [
        ("", "ROWS\n N obj\nCOLUMNS\n"),
        (" x# obj 1\n", " x19 obj 1\n x20 obj 1\nQUADOBJ\n"),
        (" x# x# 2 x19 2\n", " x19 x19 36 x20 1\nENDATA\n"),
    ];
    let certificate = [
        ("", "NOTCONVEX\n"),
        ("VECTOR x# -1\n", "VECTOR x19 1\nVECTOR x20 -1\nEND\n"),
    ];
    assert!(rt; decides_repeated(rt.alloc(), 18, &program, &certificate)?);
    Ok(())
}

#[test]
fn as_many_rows_and_columns_as_there_may_be(rt: HostRuntime) -> Result<(), Fail> {
    let program = [
        ("", "ROWS\n N obj\n"),
        (" L r#\n", "COLUMNS\n"),
        (" x# obj -1 r# 1\n", "RHS\n"),
        (" R r# #\n", "ENDATA\n"),
    ];
    let certificate = [
        ("", "OPTIMAL\nVALUE -8256\n"),
        ("POINT x# #\n", "BOUND\n"),
        ("W x# #\n", ""),
        ("Y r# -1\n", "END\n"),
    ];
    assert!(rt; decides_repeated(rt.alloc(), 128, &program, &certificate)?);
    Ok(())
}

/// A choice among 40 kinds of things by their worth and their room, as often as wished. The best worth was calculated apart, room by
/// room.
#[test]
fn forty_marked_columns(rt: HostRuntime) -> Result<(), Fail> {
    let alloc = rt.alloc();
    let mut program = String::from_str(
        alloc,
        "ROWS\n N obj\n L room\nCOLUMNS\n M 'MARKER' 'INTORG'\n",
    )?;
    for k in 1..41u64 {
        let worth = 27 + 5 * k % 27;
        let room = 23 + 9 * k % 23;
        let line = format!(in alloc; " x{k} obj -{worth} room {room}\n")?;
        program.push_str(&line)?;
    }
    program.push_str("RHS\n R room 201\nENDATA\n")?;
    assert!(rt; decides_so(alloc, program.as_bytes(), "OPTIMAL\nVALUE -367\n")?);
    Ok(())
}
