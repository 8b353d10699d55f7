ghost use Rattle.std.specs.Prelude.{◌≡◌};

use crate::failure::count_failure;
use crate::{Failed, Sink, Source};
use std::io::{Read, Write};
use std::marker::Model;

/// The size of one read, in bytes.
const PIECE: usize = 8192;

/// A reader of the standard library as a source. It tells of its bytes what the reader tells,
/// which is nothing for standard input. Each error of the reader counts as a failure.
#[derive(Drop)]
pub struct StdSource<R: Read> {
    reader: R,
    faults: u64,
}

impl<R: Read> Model for StdSource<R> {
    ghost use Rattle.sat_ports.specs.Forms.{Counted, counted_code};

    ghost Value = { Counted R };

    ghost coded = { counted_code R.code };

    ghost view = { λ s. record { inner = s.reader; faults = s.faults } };
}

impl<R: Read> StdSource<R> {
    /// A source over a reader, with no failure so far.
    pub fn new(reader: R) -> StdSource<R>
        ensures { result ≡ record { inner = reader; faults = 0 } }
    {
        StdSource { reader, faults: 0 }
    }
}

impl<R: Read> Source for StdSource<R> {
    ghost left = { λ s. R.remaining s.inner };

    ghost faults = { λ s. s.faults };

    fn read(&mut self, into: &mut [u8]) -> Result<usize, Failed> {
        let mut piece = [0u8; PIECE];
        let room = into.len().min(PIECE);
        match self.reader.read(&mut piece[..room]) {
            Ok(count) => {
                into[..count].copy_from_slice(&piece[..count]);
                Ok(count)
            }
            Err(_) => Err(count_failure(&mut self.faults)),
        }
    }
}

/// A writer of the standard library as a sink. It tells of its bytes what the writer tells, which
/// is nothing for standard output. Each write is flushed. Each error of the writer, and a write
/// that takes nothing of some bytes, counts as a failure.
#[derive(Drop)]
pub struct StdSink<W: Write> {
    writer: W,
    faults: u64,
}

impl<W: Write> Model for StdSink<W> {
    ghost use Rattle.sat_ports.specs.Forms.{Counted, counted_code};

    ghost Value = { Counted W };

    ghost coded = { counted_code W.code };

    ghost view = { λ s. record { inner = s.writer; faults = s.faults } };
}

impl<W: Write> StdSink<W> {
    /// A sink over a writer, with no failure so far.
    pub fn new(writer: W) -> StdSink<W>
        ensures { result ≡ record { inner = writer; faults = 0 } }
    {
        StdSink { writer, faults: 0 }
    }
}

impl<W: Write> Sink for StdSink<W> {
    ghost written = { λ s. W.contents s.inner };

    ghost faults = { λ s. s.faults };

    fn write(&mut self, piece: &[u8]) -> Result<usize, Failed> {
        let count = match self.writer.write(piece) {
            Ok(count) if 0 < count || piece.is_empty() => count,
            _ => return Err(count_failure(&mut self.faults)),
        };
        match self.writer.flush() {
            Ok(()) => Ok(count),
            Err(_) => Err(count_failure(&mut self.faults)),
        }
    }
}

#[cfg(test)]
mod tests {
    use super::*;
    use std::test::Fail;

    #[test]
    fn reads_on_to_the_end(rt: HostRuntime) {
        let mut source = StdSource::new(b"1 0\n".as_slice());
        let mut into = [7u8; 3];
        assert_eq!(rt; source.read(&mut into), Ok(3));
        assert_eq!(rt; into.as_slice(), b"1 0".as_slice());
        assert_eq!(rt; source.read(&mut into), Ok(1));
        assert_eq!(rt; into.as_slice(), b"\n 0".as_slice());
        assert_eq!(rt; source.read(&mut into), Ok(0));
    }

    #[test]
    fn writes_what_is_given(rt: HostRuntime) -> Result<(), Fail> {
        let mut sink = StdSink::new(Vec::new(rt.alloc()));
        assert_eq!(rt; sink.write(b"v 1"), Ok(3));
        assert_eq!(rt; sink.write(b" 0\n"), Ok(3));
        assert_eq!(rt; sink.writer.as_slice(), b"v 1 0\n".as_slice());
        Ok(())
    }

    /// Takes all that it is given, and counts how often it is flushed.
    #[derive(Drop)]
    struct CountsFlushes {
        flushes: u32,
    }

    impl Write for CountsFlushes {
        fn write(&mut self, piece: &[u8]) -> std::io::Result<usize> {
            Ok(piece.len())
        }

        fn flush(&mut self) -> std::io::Result<()> {
            self.flushes = self.flushes.saturating_add(1);
            Ok(())
        }
    }

    #[test]
    fn each_write_is_flushed(rt: HostRuntime) {
        let mut sink = StdSink::new(CountsFlushes { flushes: 0 });
        assert_eq!(rt; sink.write(b"v 1"), Ok(3));
        assert_eq!(rt; sink.writer.flushes, 1);
        assert_eq!(rt; sink.write(b" 0\n"), Ok(3));
        assert_eq!(rt; sink.writer.flushes, 2);
    }
}
