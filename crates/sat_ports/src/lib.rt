//! The outside, as the program sees it: where bytes come from, where they go, and what asks for a
//! stop.
//!
//! Each trait counts its failures or raises by a number that never falls, and a call that answers
//! one has raised that number. So code that is generic over a trait cannot make up a failure.
#![tactic(auto)]

mod alarms;
mod failure;
mod gate;
mod memory;
mod standard;

ghost use Rattle.std.specs.Prelude.{◌≡◌, ◌≤◌, ℕ, List, IfOk, drop, IsTrue};
ghost use Rattle.std.specs.declared.option.Option.{Option};
ghost use Rattle.std.specs.Io.{ReadsAtMost};
ghost use Rattle.std.specs.Io.KnownBytes.{ReadConsumes};
ghost use Rattle.sat_ports.specs.Causes.{Rose, HasCause};
ghost use Rattle.sat_ports.specs.Writes.{Advances, WritesFront};

pub use alarms::{AtPolls, Flag, Silent, interrupt_asap};
pub use failure::Failed;
pub use gate::{Gate, OpenGate};
pub use memory::{BytesSink, BytesSource, NullSink, PlainSource};
pub use standard::{StdSink, StdSource};

/// Where bytes come from.
pub trait Source {
    /// The bytes that are left, where it tells them.
    ghost left: { Self → Option (List ℕ) };

    /// How often it has failed. The count never falls, and stays at its last value.
    ghost faults: { Self → ℕ };

    /// Takes the first bytes that are left into the front of `into`, and answers how many. For a
    /// piece that is not empty, `Ok(0)` is the end. A failure takes nothing.
    fn read(&mut self, into: &mut [u8]) -> Result<usize, Failed>
        ensures bound { ReadsAtMost result into.new }
        ensures bytes { ReadConsumes (left self.old) (left self.new) result into.new }
        ensures rest { IfOk result (λ n. drop n into.new ≡ drop n into.old) }
        ensures cause { HasCause (faults self.old) (faults self.new) result };
}

/// Where bytes go.
pub trait Sink {
    /// The bytes that were written, where it tells them.
    ghost written: { Self → Option (List ℕ) };

    /// How often it has failed. The count never falls, and stays at its last value.
    ghost faults: { Self → ℕ };

    /// Appends a front of the piece, and answers its length, which is at least 1 for a piece that
    /// is not empty. A failure may have appended a front of the piece too.
    fn write(&mut self, piece: &[u8]) -> Result<usize, Failed>
        ensures advances { IfOk result (Advances piece.now) }
        ensures bytes { WritesFront (written self.old) (written self.new) result piece.now }
        ensures cause { HasCause (faults self.old) (faults self.new) result };
}

/// What asks for a stop.
pub trait Alarm {
    /// How often it was raised. The count never falls, and stays at its last value.
    ghost raises: { Self → ℕ };

    /// What a poll leaves as it was. Each value keeps to itself, and what two polls in turn leave
    /// as it was, both together leave.
    ghost kept: { Self → Self → Type 0 };

    /// Whether it asks for a stop now. True only where it was raised in this call.
    fn poll(&mut self) -> bool
        ensures later { raises self.old ≤ raises self.new }
        ensures rose { IsTrue result → Rose (raises self.old) (raises self.new) }
        ensures kept { kept self.old self.new };

    ghost kept_by_none: { (a : Self) → kept a a };

    ghost kept_by_both: { (a b c : Self) → kept a b → kept b c → kept a c };
}
