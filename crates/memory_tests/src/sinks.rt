// Sinks that are written: in memory, standard output, and one that fills up.
use outer_world::{MemSink, OutSink, Sink, SinkFault, write_whole};
use std::io::{self, Write};
use std::test::Fail;

// A sink takes a piece whole or not at all, and a listed call fails.
#[test]
fn sink_in_memory(rt: HostRuntime) -> Result<(), Fail> {
    let mut sink = MemSink::new(rt.alloc(), 5, [2].to_vec(rt.alloc())?)?;
    assert_eq!(rt; sink.bytes(), b"".as_slice());
    let calls: [(&[u8], Result<(), SinkFault>); 6] = [
        (b"ab", Ok(())),
        (b"c", Err(SinkFault)),
        (b"cdef", Err(SinkFault)),
        (b"cde", Ok(())),
        (b"f", Err(SinkFault)),
        (b"", Ok(())),
    ];
    for (piece, answer) in calls {
        assert_eq!(rt; sink.put(piece), answer);
    }
    assert_eq!(rt; sink.bytes(), b"abcde".as_slice());
    Ok(())
}

// Standard output takes a line.
#[test]
fn standard_output(rt: HostRuntime) {
    let mut sink = OutSink::new(&rt);
    assert_eq!(rt; sink.put(b"written\n"), Ok(()));
}

// Takes so many bytes in all, and then nothing. It counts the calls that flush it.
#[derive(Drop)]
struct Full {
    room: usize,
    flushes: u32,
}

impl Write for Full {
    fn write(&mut self, buf: &[u8]) -> io::Result<usize> {
        let count = buf.len().min(self.room);
        self.room -= count;
        Ok(count)
    }

    fn flush(&mut self) -> io::Result<()> {
        self.flushes = self.flushes.saturating_add(1);
        Ok(())
    }
}

// A piece that is taken is flushed, and a write that takes nothing of what is left has failed.
#[test]
fn a_write_takes_nothing(rt: HostRuntime) {
    let mut full = Full {
        room: 3,
        flushes: 0,
    };
    assert_eq!(rt; write_whole(&mut full, b"ab"), Ok(()));
    assert_eq!(rt; full.flushes, 1);
    assert_eq!(rt; write_whole(&mut full, b"cd"), Err(SinkFault));
    assert_eq!(rt; (full.room, full.flushes), (0, 1));
}
