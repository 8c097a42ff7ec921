// Sources and sinks that fail, and words.

ghost use Rattle.std.specs.Prelude.{◌≤◌};

use crate::tests::programs::{DECIDED, FALLING, FIRST, REFUTATION, REFUTED};
use crate::tests::runs::{answers, done, joined};
use qp_engine::Status;
use qp_io::{MemorySink, MemorySource, SteadySink, SteadySource};
use std::alloc::Global;
use std::test::Fail;

const USAGE: &str =
    "usage: qp solve|check|write|sample [--bases N] [--boxes N] [--kind K] [--number N]\n";

/// Whether a run whose read with this number fails ends so, with nothing written.
fn fails_at_a_read(
    alloc: Global,
    word: &str,
    input: &[&str],
    per_read: usize,
    number: u64,
) -> Result<bool, Fail>
    requires { 1 ≤ per_read }
{
    let failing = vec![in alloc; number]?;
    let mut source = MemorySource::of(joined(alloc, input)?, per_read, failing);
    let mut sink = SteadySink::of(alloc, 4096);
    let ended = done(alloc, word, &mut source, &mut sink)?;
    Ok(ended == Status::ReadFault && sink.bytes() == b"".as_slice())
}

/// Whether a run whose write with this number fails ends so, with this front of its text written.
fn fails_at_a_write(
    alloc: Global,
    word: &str,
    input: &[&str],
    per_write: usize,
    number: u64,
    front: &str,
) -> Result<bool, Fail>
    requires { 1 ≤ per_write }
{
    let mut source = SteadySource::of(joined(alloc, input)?, 4096);
    let failing = vec![in alloc; number]?;
    let mut sink = MemorySink::of(alloc, per_write, failing);
    let ended = done(alloc, word, &mut source, &mut sink)?;
    Ok(ended == Status::WriteFault && sink.bytes() == front.as_bytes())
}

#[test]
fn reads_that_fail(rt: HostRuntime) -> Result<(), Fail> {
    let alloc = rt.alloc();
    assert!(rt; fails_at_a_read(alloc, "solve", &[FIRST], 16, 2)?);
    assert!(rt; fails_at_a_read(alloc, "solve", &[FIRST], 16, 1)?);
    assert!(rt; fails_at_a_read(alloc, "check", &[REFUTED, REFUTATION], 16, 2)?);
    Ok(())
}

#[test]
fn a_sample_reads_nothing(rt: HostRuntime) -> Result<(), Fail> {
    let alloc = rt.alloc();
    let failing = vec![in alloc; 1u64]?;
    let mut source = MemorySource::of(joined(alloc, &[FIRST])?, 16, failing);
    let mut sink = SteadySink::of(alloc, 7);
    let ended = done(alloc, "sample --kind 3", &mut source, &mut sink)?;
    assert_eq!(rt; ended, Status::Done);
    let text = "SAMPLE 3 1\nROWS 1\nCOLUMNS 12\nOPTIMAL\nVALUE -154\n";
    assert_eq!(rt; sink.bytes(), text.as_bytes());
    Ok(())
}

#[test]
fn writes_that_fail(rt: HostRuntime) -> Result<(), Fail> {
    let alloc = rt.alloc();
    let front = "OPTIMAL\nVALUE 8\nPOINT";
    assert!(rt; fails_at_a_write(alloc, "solve", &[FIRST], 7, 4, front)?);
    assert!(rt; fails_at_a_write(alloc, "solve", &[FIRST], 7, 1, "")?);
    let input = [REFUTED, REFUTATION];
    assert!(rt; fails_at_a_write(alloc, "check", &input, 4, 2, "ACCE")?);
    Ok(())
}

#[test]
fn words_that_are_taken(rt: HostRuntime) -> Result<(), Fail> {
    let alloc = rt.alloc();
    for line in [
        "solve",
        "solve --bases=5",
        "solve --bases 4611686018427387904",
        "solve --boxes 20000",
        "--boxes 1 solve",
        "solve --number 18446744073709551615 --kind 3",
    ] {
        assert!(rt;
            answers(
                alloc,
                line,
                &[FALLING],
                Status::Done,
                "UNBOUNDED\nRAY x 1\nEND\n"
            )?,
            "{line}"
        );
    }
    Ok(())
}

#[test]
fn words_that_are_not_taken(rt: HostRuntime) -> Result<(), Fail> {
    let alloc = rt.alloc();
    for line in [
        "",
        "prove",
        "solve check",
        "check check",
        "solve --bases",
        "solve --bases 0",
        "solve --bases 4611686018427387905",
        "solve --boxes 0",
        "solve --boxes 20001",
        "solve --kind 4",
        "sample --kind 4",
        "sample --kind 0",
        "sample --number -1",
        "sample --number 18446744073709551616",
        "solve --other 1",
        "--help",
        "--version",
    ] {
        assert!(rt;
            answers(alloc, line, &[FIRST, DECIDED], Status::Usage, USAGE)?,
            "{line}"
        );
    }
    Ok(())
}
