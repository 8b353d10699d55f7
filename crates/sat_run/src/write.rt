ghost use Rattle.std.specs.Prelude.{◌≡◌, ◌++◌, OnOk, OnErr};
ghost use Rattle.std.specs.Io.KnownBytes.{Appends};
ghost use Rattle.sat_ports.specs.Causes.{HasCause};
ghost use Rattle.sat_ports.specs.Writes.{AppendsFront};
ghost use Rattle.dimacs_text.specs.Texts.{text_of_refusal};
ghost use Rattle.sat_run.specs.Writing.{port, WritesText};
ghost use Rattle.sat_run.specs.Reports.{block, text_of_report, entries_text, text_of_block};

use crate::failures::Halt;
use crate::report::Report;
use dimacs_text::{Refusal, print_alarm, print_limit, print_refusal, print_shared, print_verdict};
use sat_lits::{List, NoMemory, Shared};
use sat_ports::{Failed, Sink};
use std::alloc::Global;

/// Writes all of the bytes, or up to where a write failed.
fn write_all<K: Sink>(sink: &mut K, bytes: &[u8]) -> Result<(), Failed>
    ensures ok { OnOk result (Appends (K.written sink.old) (K.written sink.new) bytes.now) }
    ensures err { OnErr result (AppendsFront (K.written sink.old) (K.written sink.new) bytes.now) }
    ensures cause { HasCause (K.faults sink.old) (K.faults sink.new) result }
{
    let mut at = 0;
    while at < bytes.len() {
        at += sink.write(&bytes[at..])?;
    }
    Ok(())
}

fn print_report(to: &mut List<u8>, report: &Report) -> Result<(), NoMemory>
    ensures { OnOk result (to.new ≡ to.old ++ text_of_report report.now) }
{
    match report {
        Report::Verdict(verdict) => print_verdict(to, verdict),
        Report::Limit(counts) => print_limit(to, counts.as_slice()),
        Report::Alarm => print_alarm(to),
    }
}

/// Appends a line for each shared clause.
fn print_entries(to: &mut List<u8>, entries: &[Shared]) -> Result<(), NoMemory>
    ensures { OnOk result (to.new ≡ to.old ++ entries_text entries.now) }
{
    for entry in entries {
        print_shared(to, entry)?;
    }
    Ok(())
}

/// Writes a block: the text of a report, and behind it a line for each shared clause.
pub fn write_block<K: Sink>(
    alloc: Global,
    sink: &mut K,
    report: &Report,
    entries: &[Shared],
) -> Result<(), Halt>
    ensures { WritesText (text_of_block (block report.now entries.now)) result
        (port (K.written sink.old) (K.faults sink.old)) (port (K.written sink.new) (K.faults sink.new)) }
{
    let mut text = List::new(alloc);
    print_report(&mut text, report)?;
    print_entries(&mut text, entries)?;
    write_all(sink, text.as_slice())?;
    Ok(())
}

/// Writes the text of a refusal.
pub fn write_refusal<K: Sink>(alloc: Global, sink: &mut K, why: &Refusal) -> Result<(), Halt>
    ensures { WritesText (text_of_refusal why.now) result
        (port (K.written sink.old) (K.faults sink.old)) (port (K.written sink.new) (K.faults sink.new)) }
{
    let mut text = List::new(alloc);
    print_refusal(&mut text, why)?;
    write_all(sink, text.as_slice())?;
    Ok(())
}
