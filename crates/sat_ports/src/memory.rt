ghost use Rattle.std.specs.Prelude.{◌≡◌, ◌<◌, ◌≤◌, ◌↔◌, ℕ, List, [], Some, None, Ok, IfOk, OnOk, OnErr, IsErr, IsTrue, IsFalse, length, drop, take, min, true, false};
ghost use Rattle.std.specs.Io.{ReadsAtMost};
ghost use Rattle.std.specs.Io.KnownBytes.{ReadConsumes};
ghost use Rattle.sat_ports.specs.Causes.{Rose, HasCause};
ghost use Rattle.sat_ports.specs.Writes.{Advances, WritesFront};
ghost use Rattle.sat_ports.specs.Forms.{Pieces, Shelf, is_listed, is_refused, fitting, after_read, after_failed_read, after_write, after_failed_write};

use crate::failure::count_failure;
use crate::{Failed, Sink, Source};
use sat_lits::NoMemory;
use std::alloc::Global;
use std::marker::Model;

/// Reads bytes from memory, as many at once as are asked for. It never fails.
#[derive(Drop)]
pub struct PlainSource<'a> {
    bytes: &'a [u8],
}

impl<'a> Model for PlainSource<'a> {
    ghost use Rattle.std.specs.Prelude.{List, ℕ};

    ghost Value = { List ℕ };

    ghost view = { λ s. s.bytes.now };
}

impl<'a> PlainSource<'a> {
    /// A source of these bytes.
    pub fn new(bytes: &'a [u8]) -> PlainSource<'a>
        ensures { result ≡ bytes.now }
    {
        PlainSource { bytes }
    }
}

impl<'a> Source for PlainSource<'a> {
    ghost left = { λ s. Some s };

    ghost faults = { λ _. 0 };

    fn read(&mut self, into: &mut [u8]) -> Result<usize, Failed> {
        let count = into.len().min(self.bytes.len());
        into[..count].copy_from_slice(&self.bytes[..count]);
        self.bytes = &self.bytes[count..];
        Ok(count)
    }
}

/// Reads bytes from memory in pieces of one size. The calls that are listed fail.
#[derive(Drop)]
pub struct BytesSource<'a> {
    bytes: &'a [u8],
    piece: usize,
    failing: &'a [u64],
    calls: u64,
    faults: u64,
}

impl<'a> Model for BytesSource<'a> {
    ghost use Rattle.std.specs.Prelude.{◌<◌};
    ghost use Rattle.sat_ports.specs.Forms.{Pieces};

    ghost Value = { Pieces };

    ghost view = { λ s. record { left = s.bytes.now; piece = s.piece; failing = s.failing.now; calls = s.calls; faults = s.faults } };

    ghost invariant = { λ s. 0 < s.piece };
}

impl<'a> BytesSource<'a> {
    /// A source of these bytes in pieces of at most `piece`. The calls of `read` whose numbers,
    /// from 0, are in `failing` fail.
    pub fn new(bytes: &'a [u8], piece: usize, failing: &'a [u64]) -> BytesSource<'a>
        requires { 0 < piece }
        ensures { result ≡ record { left = bytes.now; piece = piece; failing = failing.now; calls = 0; faults = 0 } }
    {
        BytesSource {
            bytes,
            piece,
            failing,
            calls: 0,
            faults: 0,
        }
    }
}

impl<'a> Source for BytesSource<'a> {
    ghost left = { λ s. Some s.left };

    ghost faults = { λ s. s.faults };

    fn read(&mut self, into: &mut [u8]) -> Result<usize, Failed>
        ensures bound { ReadsAtMost result into.new }
        ensures bytes { ReadConsumes (Some self.old.left) (Some self.new.left) result into.new }
        ensures rest { IfOk result (λ n. drop n into.new ≡ drop n into.old) }
        ensures cause { HasCause self.old.faults self.new.faults result }

        // Exactly the listed calls fail, and each other call gives as much as it may.
        ensures listed { IsErr result ↔ IsTrue (is_listed self.old.calls self.old.failing) }
        ensures whole { IfOk result (λ n. n ≡ min (min self.old.piece (length into.old)) (length self.old.left)) }

        // What the next call depends on.
        ensures next { IfOk result (λ n. self.new ≡ after_read n self.old) }
        ensures after_failure { OnErr result (self.new ≡ after_failed_read self.old) }
    {
        let call = self.calls;
        self.calls = call.saturating_add(1);
        if self.failing.contains(&call) {
            return Err(count_failure(&mut self.faults));
        }
        let count = self.piece.min(into.len()).min(self.bytes.len());
        into[..count].copy_from_slice(&self.bytes[..count]);
        self.bytes = &self.bytes[count..];
        Ok(count)
    }
}

/// Keeps the bytes that are written, up to its room. The calls that are listed fail.
#[derive(Drop)]
pub struct BytesSink {
    bytes: Vec<u8>,
    room: usize,
    failing: Vec<u64>,
    calls: u64,
    faults: u64,
}

impl Model for BytesSink {
    ghost use Rattle.std.specs.Prelude.{◌≤◌, vec_len, vec_capacity};
    ghost use Rattle.sat_ports.specs.Forms.{Shelf};

    ghost Value = { Shelf };

    ghost view = { λ s. record { written = s.bytes.items; room = s.room; failing = s.failing.items; calls = s.calls; faults = s.faults } };

    ghost invariant = { λ s. (vec_len s.bytes ≤ s.room) × (s.room ≤ vec_capacity s.bytes) };
}

impl BytesSink {
    /// A sink with room for `room` bytes, which it takes at once. The calls of `write` whose
    /// numbers, from 0, are in `failing` fail, and so does one of some bytes where no room is left.
    /// The only error is want of memory.
    pub fn with_room(alloc: Global, room: usize, failing: &[u64]) -> Result<BytesSink, NoMemory>
        ensures { IfOk result (λ s. s ≡ record { written = []; room = room; failing = failing.now; calls = 0; faults = 0 }) }
    {
        Ok(BytesSink {
            bytes: Vec::with_capacity(alloc, room)?,
            room,
            failing: Vec::from_slice(alloc, failing)?,
            calls: 0,
            faults: 0,
        })
    }

    /// What was written.
    pub fn bytes(&self) -> &[u8]
        ensures { result.now ≡ self.now.written }
    {
        &self.bytes
    }

    /// How often a write failed.
    pub fn faults(&self) -> u64
        ensures { result ≡ self.now.faults }
    {
        self.faults
    }
}

impl Sink for BytesSink {
    ghost written = { λ s. Some s.written };

    ghost faults = { λ s. s.faults };

    fn write(&mut self, piece: &[u8]) -> Result<usize, Failed>
        ensures advances { IfOk result (Advances piece.now) }
        ensures bytes { WritesFront (Some self.old.written) (Some self.new.written) result piece.now }
        ensures cause { HasCause self.old.faults self.new.faults result }

        // Exactly the refused calls fail, and each other call takes what has room.
        ensures refused { IsErr result ↔ IsTrue (is_refused self.old piece.now) }
        ensures whole { IfOk result (λ n. n ≡ fitting self.old piece.now) }

        // What the next call depends on. A failure appends nothing.
        ensures next { IfOk result (λ n. self.new ≡ after_write n piece.now self.old) }
        ensures after_failure { OnErr result (self.new ≡ after_failed_write self.old) }
    {
        let call = self.calls;
        self.calls = call.saturating_add(1);
        let count = piece.len().min(self.room - self.bytes.len());
        let is_full = count == 0 && !piece.is_empty();
        if self.failing.contains(&call) || is_full {
            return Err(count_failure(&mut self.faults));
        }
        self.bytes.extend_from_slice(&piece[..count]).unwrap();
        Ok(count)
    }
}

/// Takes all that is written, and keeps nothing.
#[derive(Clone, Copy, Debug)]
pub struct NullSink;

impl NullSink {
    pub fn new() -> NullSink {
        NullSink
    }
}

impl Sink for NullSink {
    ghost written = { λ _. None };

    ghost faults = { λ _. 0 };

    fn write(&mut self, piece: &[u8]) -> Result<usize, Failed>
        ensures advances { IfOk result (Advances piece.now) }
        ensures bytes { WritesFront None None result piece.now }
        ensures cause { HasCause 0 0 result }
        ensures whole { result ≡ Ok (length piece.now) }
    {
        Ok(piece.len())
    }
}

#[cfg(test)]
mod tests {
    use super::*;
    use std::test::Fail;

    #[test]
    fn a_plain_source_gives_all_there_is(rt: HostRuntime) {
        let mut source = PlainSource::new(b"abcde");
        let mut into = [0u8; 4];
        assert_eq!(rt; source.read(&mut into), Ok(4));
        assert_eq!(rt; into.as_slice(), b"abcd".as_slice());
        assert_eq!(rt; source.read(&mut into), Ok(1));
        assert_eq!(rt; source.read(&mut into), Ok(0));
    }

    #[test]
    fn a_listed_read_fails_once(rt: HostRuntime) {
        let mut source = BytesSource::new(b"abc", 2, &[1]);
        let mut into = [0u8; 4];
        assert_eq!(rt; source.read(&mut into), Ok(2));
        assert_eq!(rt; source.read(&mut into), Err(Failed));
        assert_eq!(rt; source.read(&mut into), Ok(1));
        assert_eq!(rt; into.as_slice(), b"cb\0\0".as_slice());
    }

    #[test]
    fn a_sink_takes_what_has_room(rt: HostRuntime) -> Result<(), Fail> {
        let mut sink = BytesSink::with_room(rt.alloc(), 4, &[])?;
        assert_eq!(rt; sink.write(b"abcde"), Ok(4));
        assert_eq!(rt; sink.write(b"e"), Err(Failed));
        assert_eq!(rt; sink.faults(), 1);
        assert_eq!(rt; sink.bytes(), b"abcd".as_slice());
        Ok(())
    }

    #[test]
    fn a_listed_write_fails(rt: HostRuntime) -> Result<(), Fail> {
        let mut sink = BytesSink::with_room(rt.alloc(), 4, &[0])?;
        assert_eq!(rt; sink.write(b"a"), Err(Failed));
        assert_eq!(rt; sink.write(b"a"), Ok(1));
        assert_eq!(rt; sink.bytes(), b"a".as_slice());
        Ok(())
    }
}
