// Each call of the sources and sinks, through its trait, and whole texts over them.

use qp_io::{
    Failed, MemorySink, MemorySource, ReadEdge, Sink, SinkStop, Source, SteadySink, SteadySource,
    WriteEdge,
};
use qp_streams::{ReadStop, read_all, write_all};
use std::alloc::Global;
use std::io;
use std::io::{Read, Write};
use std::test::Fail;

/// What four reads of at most three bytes give, `!` for a call that fails, and a bar after each.
fn given<S: Source>(alloc: Global, source: &mut S) -> Result<Vec<u8>, Fail> {
    let mut text = Vec::new(alloc);
    let mut part = [0u8; 3];
    for _ in 0..4u8 {
        match source.read(&mut part) {
            Ok(count) => text.extend_from_slice(&part[..count])?,
            Err(Failed) => text.push(b'!')?,
        }
        text.push(b'|')?;
    }
    Ok(text)
}

/// What three writes answer.
fn offered<T: Sink>(alloc: Global, sink: &mut T) -> Result<Vec<Result<usize, SinkStop>>, Fail> {
    let mut answers = Vec::new(alloc);
    for piece in [b"abc", b"cde", b"efg"] {
        answers.push(sink.write(piece))?;
    }
    Ok(answers)
}

#[test]
fn sources_in_memory(rt: HostRuntime) -> Result<(), Fail> {
    let bytes = b"abcdefg".to_vec(rt.alloc())?;
    let failing = vec![in rt.alloc(); 2u64]?;
    let mut failing_once = MemorySource::of(bytes, 5, failing);
    assert_eq!(rt;
        given(rt.alloc(), &mut failing_once)?.as_slice(),
        b"abc|!|def|g|".as_slice()
    );
    let bytes = b"abcde".to_vec(rt.alloc())?;
    let mut steady = SteadySource::of(bytes, 2);
    assert_eq!(rt;
        given(rt.alloc(), &mut steady)?.as_slice(),
        b"ab|cd|e||".as_slice()
    );
    Ok(())
}

#[test]
fn sinks_in_memory(rt: HostRuntime) -> Result<(), Fail> {
    let failing = vec![in rt.alloc(); 2u64]?;
    let mut failing_once = MemorySink::of(rt.alloc(), 2, failing);
    let answers = offered(rt.alloc(), &mut failing_once)?;
    assert_eq!(rt;
        answers.as_slice(),
        [Ok(2), Err(SinkStop::Failed), Ok(2)].as_slice()
    );
    assert_eq!(rt; failing_once.bytes(), b"abef".as_slice());
    let mut steady = SteadySink::of(rt.alloc(), 4);
    let answers = offered(rt.alloc(), &mut steady)?;
    assert_eq!(rt; answers.as_slice(), [Ok(3), Ok(3), Ok(3)].as_slice());
    assert_eq!(rt; steady.bytes(), b"abccdeefg".as_slice());
    Ok(())
}

/// Fails at each call.
#[derive(Drop)]
struct Broken;

impl Read for Broken {
    fn read(&mut self, _part: &mut [u8]) -> io::Result<usize> {
        Err(io::Error::from(io::ErrorKind::BrokenPipe))
    }
}

/// Takes nothing.
#[derive(Drop)]
struct Full;

impl Write for Full {
    fn write(&mut self, _piece: &[u8]) -> io::Result<usize> {
        Ok(0)
    }

    fn flush(&mut self) -> io::Result<()> {
        Ok(())
    }
}

#[test]
fn edges_pass_on(rt: HostRuntime) -> Result<(), Fail> {
    let bytes = b"abc";
    let mut part = [0u8; 2];
    let mut source = ReadEdge::of(bytes.as_slice());
    for (want, front) in [(2, b"ab"), (1, b"cb"), (0, b"cb")] {
        assert_eq!(rt; source.read(&mut part), Ok(want));
        assert_eq!(rt; &part, front);
    }
    let mut broken = ReadEdge::of(Broken);
    assert_eq!(rt; broken.read(&mut part), Err(Failed));

    let mut taken = Vec::new(rt.alloc());
    let mut sink = WriteEdge::of(&mut taken);
    assert_eq!(rt; sink.write(b"ab"), Ok(2));
    assert_eq!(rt; taken.as_slice(), b"ab".as_slice());

    let mut full = WriteEdge::of(Full);
    assert_eq!(rt; full.write(b"ab"), Err(SinkStop::Failed));
    Ok(())
}

/// Takes half of each piece, of an odd one the larger half.
#[derive(Drop)]
struct Halving {
    taken: Vec<u8>,
}

impl Write for Halving {
    fn write(&mut self, piece: &[u8]) -> io::Result<usize> {
        let count = piece.len() - piece.len() / 2;
        self.taken.extend_from_slice(&piece[..count])?;
        Ok(count)
    }

    fn flush(&mut self) -> io::Result<()> {
        Ok(())
    }
}

#[test]
fn edges_pass_on_short_writes(rt: HostRuntime) -> Result<(), Fail> {
    let mut halving = Halving {
        taken: Vec::new(rt.alloc()),
    };
    let mut sink = WriteEdge::of(&mut halving);
    assert_eq!(rt; sink.write(b"ab"), Ok(1));
    assert_eq!(rt; write_all(&mut sink, b"cdefghi"), Ok(()));
    assert_eq!(rt; halving.taken.as_slice(), b"acdefghi".as_slice());
    Ok(())
}

/// More bytes than any block has, in a pattern whose length divides no block's.
fn long_text(alloc: Global) -> Result<Vec<u8>, Fail> {
    let mut text = Vec::new(alloc);
    for i in 0..100_000u32 {
        text.push((i % 251) as u8)?;
    }
    Ok(text)
}

/// One call of the source gives the whole of a long text.
fn gives_at_once<S: Source>(alloc: Global, source: &mut S, text: &[u8]) -> Result<bool, Fail> {
    let mut part = vec![in alloc; 0u8; 100_000]?;
    Ok(source.read(&mut part) == Ok(100_000) && part.as_slice() == text)
}

#[test]
fn long_reads_are_whole(rt: HostRuntime) -> Result<(), Fail> {
    let text = long_text(rt.alloc())?;
    let mut steady = SteadySource::of(long_text(rt.alloc())?, 100_000);
    assert!(rt; gives_at_once(rt.alloc(), &mut steady, &text)?);
    let mut edge = ReadEdge::of(text.as_slice());
    assert!(rt; gives_at_once(rt.alloc(), &mut edge, &text)?);

    let mut steady = SteadySource::of(long_text(rt.alloc())?, 100_000);
    assert!(rt;
        read_all(rt.alloc(), &mut steady, 100_000).is_ok_and(|read| read.as_slice()
            == text.as_slice())
    );
    let mut edge = ReadEdge::of(text.as_slice());
    assert!(rt;
        read_all(rt.alloc(), &mut edge, 100_000).is_ok_and(|read| read.as_slice()
            == text.as_slice())
    );
    Ok(())
}

#[test]
fn reads_up_to_a_limit(rt: HostRuntime) -> Result<(), Fail> {
    for per_call in [1, 2, 7] {
        let mut source = SteadySource::of(b"abcde".to_vec(rt.alloc())?, per_call);
        match read_all(rt.alloc(), &mut source, 5) {
            Ok(text) => assert_eq!(rt; text.as_slice(), b"abcde".as_slice()),
            Err(stop) => assert_eq!(rt; Some(stop), None),
        }
        let mut source = SteadySource::of(b"abcde".to_vec(rt.alloc())?, per_call);
        assert!(rt; matches!(read_all(rt.alloc(), &mut source, 4), Err(ReadStop::Long)));
    }
    let mut source = MemorySource::of(b"abcde".to_vec(rt.alloc())?, 2, vec![in rt.alloc(); 3u64]?);
    assert!(rt; matches!(read_all(rt.alloc(), &mut source, 5), Err(ReadStop::Fault)));
    Ok(())
}

#[test]
fn writes_all_of_a_text(rt: HostRuntime) -> Result<(), Fail> {
    let mut sink = SteadySink::of(rt.alloc(), 2);
    assert_eq!(rt; write_all(&mut sink, b"abcde"), Ok(()));
    assert_eq!(rt; sink.bytes(), b"abcde".as_slice());
    let mut sink = MemorySink::of(rt.alloc(), 2, vec![in rt.alloc(); 2u64]?);
    assert_eq!(rt; write_all(&mut sink, b"abcde"), Err(SinkStop::Failed));
    assert_eq!(rt; sink.bytes(), b"ab".as_slice());
    Ok(())
}
