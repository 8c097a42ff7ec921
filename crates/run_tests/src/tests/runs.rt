// Runs over sources and sinks in memory, and what they write.

ghost use Rattle.std.specs.Prelude.{◌≤◌};

use qp_engine::{Status, run};
use qp_io::{Sink, Source, SteadySink, SteadySource};
use std::alloc::Global;
use std::test::Fail;

pub(crate) fn joined(alloc: Global, parts: &[&str]) -> Result<Vec<u8>, Fail> {
    let mut bytes = Vec::new(alloc);
    for part in parts {
        bytes.extend_from_slice(part.as_bytes())?;
    }
    Ok(bytes)
}

pub(crate) fn words_of(alloc: Global, line: &str) -> Result<Vec<String>, Fail> {
    let mut words = Vec::new(alloc);
    for word in line.split_ascii_whitespace() {
        words.push(String::from_str(alloc, word)?)?;
    }
    Ok(words)
}

pub(crate) fn done<S: Source, T: Sink>(
    alloc: Global,
    line: &str,
    source: &mut S,
    sink: &mut T,
) -> Result<Status, Fail> {
    let words = words_of(alloc, line)?;
    Ok(run(alloc, &words, source, sink))
}

/// How a run on an input ends, and what it writes, with so many bytes per read.
fn written(
    alloc: Global,
    line: &str,
    input: Vec<u8>,
    per_read: usize,
) -> Result<(Status, Vec<u8>), Fail>
    requires { 1 ≤ per_read }
{
    let mut source = SteadySource::of(input, per_read);
    let mut sink = SteadySink::of(alloc, 4096);
    let status = done(alloc, line, &mut source, &mut sink)?;
    let mut text = Vec::new(alloc);
    text.extend_from_slice(sink.bytes())?;
    Ok((status, text))
}

/// Whether a run on an input ends so and writes this text, with so many bytes per read.
pub(crate) fn answers_by(
    alloc: Global,
    line: &str,
    input: &[&str],
    per_read: usize,
    status: Status,
    text: &str,
) -> Result<bool, Fail>
    requires { 1 ≤ per_read }
{
    let (ended, bytes) = written(alloc, line, joined(alloc, input)?, per_read)?;
    Ok(ended == status && bytes.as_slice() == text.as_bytes())
}

/// Whether a run on an input ends so and writes this text.
pub(crate) fn answers(
    alloc: Global,
    line: &str,
    input: &[&str],
    status: Status,
    text: &str,
) -> Result<bool, Fail> {
    answers_by(alloc, line, input, 4096, status, text)
}

/// Whether `check` accepts a certificate behind a program.
fn accepts(alloc: Global, program: &[u8], certificate: &[u8]) -> Result<bool, Fail> {
    let mut input = Vec::new(alloc);
    input.extend_from_slice(program)?;
    input.extend_from_slice(certificate)?;
    let (ended, bytes) = written(alloc, "check", input, 4096)?;
    Ok(ended == Status::Done && bytes.as_slice() == b"ACCEPTED\n".as_slice())
}

/// What `solve` writes on a program, where it is done and `check` accepts that behind the program.
pub(crate) fn verdict_on(alloc: Global, program: &[u8]) -> Result<Option<Vec<u8>>, Fail> {
    let mut input = Vec::new(alloc);
    input.extend_from_slice(program)?;
    let (ended, bytes) = written(alloc, "solve", input, 4096)?;
    if ended == Status::Done && accepts(alloc, program, &bytes)? {
        Ok(Some(bytes))
    } else {
        Ok(None)
    }
}

/// Whether `solve` writes this certificate on a program, and `check` accepts it.
pub(crate) fn decides(alloc: Global, program: &[u8], certificate: &[u8]) -> Result<bool, Fail> {
    match verdict_on(alloc, program)? {
        Some(bytes) => Ok(bytes.as_slice() == certificate),
        None => Ok(false),
    }
}

/// Whether `solve` writes a certificate that begins so on a program, and `check` accepts it.
pub(crate) fn decides_so(alloc: Global, program: &[u8], front: &str) -> Result<bool, Fail> {
    match verdict_on(alloc, program)? {
        Some(bytes) => Ok(bytes.as_slice().starts_with(front.as_bytes())),
        None => Ok(false),
    }
}

/// Whether `solve` with these words withholds its verdict on a program with this text.
pub(crate) fn withholds(
    alloc: Global,
    line: &str,
    program: &str,
    text: &str,
) -> Result<bool, Fail> {
    answers(alloc, line, &[program], Status::Withheld, text)
}
