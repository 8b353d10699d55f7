ghost use Rattle.std.specs.Prelude.{◌≡◌, ◌+◌, ◌-◌, ◌^◌, ◌<◌, ◌++◌, OnOk, OnErr, string_bytes};
ghost use Rattle.dimacs_text.specs.Texts.{literal_text, values_text, literals_text, counts_text, giver_text, text_of_verdict, text_of_limit, text_of_alarm, text_of_shared, text_of_refusal};

use crate::refusal::Refusal;
use sat_lits::{List, Lit, NoMemory, Shared, Verdict};
use std::alloc::AllocError;

/// Appends the lines that report a verdict. For want of memory the list stays as it was.
pub fn print_verdict(to: &mut List<u8>, verdict: &Verdict) -> Result<(), NoMemory>
    ensures ok { OnOk result (to.new ≡ to.old ++ text_of_verdict verdict.now) }
    ensures err { OnErr result (to.new ≡ to.old) }
{
    let mut text = String::new(to.allocator());
    write_verdict(&mut text, verdict)?;
    to.extend_from_slice(text.as_bytes())
}

/// Appends the line that reports a refusal. For want of memory the list stays as it was.
pub fn print_refusal(to: &mut List<u8>, refusal: &Refusal) -> Result<(), NoMemory>
    ensures ok { OnOk result (to.new ≡ to.old ++ text_of_refusal refusal.now) }
    ensures err { OnErr result (to.new ≡ to.old) }
{
    let mut text = String::new(to.allocator());
    write_refusal(&mut text, refusal)?;
    to.extend_from_slice(text.as_bytes())
}

/// Appends the lines that report an alarm. For want of memory the list stays as it was.
pub fn print_alarm(to: &mut List<u8>) -> Result<(), NoMemory>
    ensures ok { OnOk result (to.new ≡ to.old ++ text_of_alarm) }
    ensures err { OnErr result (to.new ≡ to.old) }
{
    to.extend_from_slice(b"s INDETERMINATE\nc alarm\n")
}

/// Appends the line of a clause that solvers share. For want of memory the list stays as it was.
pub fn print_shared(to: &mut List<u8>, entry: &Shared) -> Result<(), NoMemory>
    ensures ok { OnOk result (to.new ≡ to.old ++ text_of_shared entry.now) }
    ensures err { OnErr result (to.new ≡ to.old) }
{
    let mut text = String::new(to.allocator());
    write_shared(&mut text, entry)?;
    to.extend_from_slice(text.as_bytes())
}

/// Appends the lines that report a spent conflict limit, with a count for each solver. For want of
/// memory the list stays as it was.
pub fn print_limit(to: &mut List<u8>, counts: &[u64]) -> Result<(), NoMemory>
    ensures ok { OnOk result (to.new ≡ to.old ++ text_of_limit counts.now) }
    ensures err { OnErr result (to.new ≡ to.old) }
{
    let mut text = String::new(to.allocator());
    write_limit(&mut text, counts)?;
    to.extend_from_slice(text.as_bytes())
}

fn write_verdict(text: &mut String, verdict: &Verdict) -> Result<(), AllocError>
    ensures { OnOk result (string_bytes text.new ≡ string_bytes text.old ++ text_of_verdict verdict.now) }
{
    match verdict {
        Verdict::Sat(values) => {
            text.push_str("s SATISFIABLE\nv")?;
            write_values(text, values.as_slice())?;
            text.push_str(" 0\n")
        }
        Verdict::Unsat(failed) => {
            text.push_str("s UNSATISFIABLE\nc failed")?;
            write_literals(text, failed.as_slice())?;
            text.push_str(" 0\n")
        }
    }
}

/// Writes for each variable in order the literal that its value makes true.
fn write_values(text: &mut String, values: &[bool]) -> Result<(), AllocError>
    ensures { OnOk result (string_bytes text.new ≡ string_bytes text.old ++ values_text values.now) }
{
    for (var, value) in values.iter().enumerate() {
        write_literal(text, !*value, var)?;
    }
    Ok(())
}

fn write_literals(text: &mut String, lits: &[Lit]) -> Result<(), AllocError>
    ensures { OnOk result (string_bytes text.new ≡ string_bytes text.old ++ literals_text lits.now) }
{
    for lit in lits {
        write_literal(text, lit.negative, lit.var.0 as usize)?;
    }
    Ok(())
}

/// Writes a blank and a literal of the variable, which is numbered from 1 in the text.
fn write_literal(text: &mut String, negative: bool, var: usize) -> Result<(), AllocError>
    requires { var < 2 ^ 64 - 1 }
    ensures { OnOk result (string_bytes text.new ≡ string_bytes text.old ++ literal_text negative var) }
{
    let sign = if negative { "-" } else { "" };
    write!(text, " {sign}{}", var + 1)
}

fn write_refusal(text: &mut String, refusal: &Refusal) -> Result<(), AllocError>
    ensures { OnOk result (string_bytes text.new ≡ string_bytes text.old ++ text_of_refusal refusal.now) }
{
    let word = refusal.word();
    let place = refusal.place();
    writeln!(text, "c refused {word} {place}")
}

fn write_shared(text: &mut String, entry: &Shared) -> Result<(), AllocError>
    ensures { OnOk result (string_bytes text.new ≡ string_bytes text.old ++ text_of_shared entry.now) }
{
    write_giver(text, entry.solver, entry.after)?;
    write_literals(text, entry.clause.as_slice())?;
    text.push_str(" 0\n")
}

/// Writes who gave a shared clause, and behind how many entries.
fn write_giver(text: &mut String, solver: u32, after: u64) -> Result<(), AllocError>
    ensures { OnOk result (string_bytes text.new ≡ string_bytes text.old ++ giver_text solver after) }
{
    write!(text, "c shared {solver} {after}")
}

fn write_limit(text: &mut String, counts: &[u64]) -> Result<(), AllocError>
    ensures { OnOk result (string_bytes text.new ≡ string_bytes text.old ++ text_of_limit counts.now) }
{
    text.push_str("s INDETERMINATE\nc limit")?;
    write_counts(text, counts)?;
    text.push_str("\n")
}

/// Writes a blank before each count.
fn write_counts(text: &mut String, counts: &[u64]) -> Result<(), AllocError>
    ensures { OnOk result (string_bytes text.new ≡ string_bytes text.old ++ counts_text counts.now) }
{
    for count in counts {
        write!(text, " {count}")?;
    }
    Ok(())
}

#[cfg(test)]
mod tests {
    use super::*;
    use sat_lits::Var;
    use std::test::Fail;

    #[test]
    fn prints_each_text(rt: HostRuntime) -> Result<(), Fail> {
        let alloc = rt.alloc();
        let one = Lit {
            var: Var(0),
            negative: false,
        };
        let minus_four = Lit {
            var: Var(3),
            negative: true,
        };
        let mut text = List::new(alloc);
        print_verdict(
            &mut text,
            &Verdict::Sat(List::from_slice(alloc, &[true, false])?),
        )?;
        print_verdict(&mut text, &Verdict::Sat(List::new(alloc)))?;
        print_verdict(&mut text, &Verdict::Unsat(List::new(alloc)))?;
        print_verdict(
            &mut text,
            &Verdict::Unsat(List::from_slice(alloc, &[one, minus_four])?),
        )?;
        print_refusal(&mut text, &Refusal::BadToken { place: 2 })?;
        print_refusal(&mut text, &Refusal::VarTooLarge { place: 0 })?;
        print_refusal(&mut text, &Refusal::TooManyLits { place: 8 })?;
        print_refusal(&mut text, &Refusal::Truncated { place: 3 })?;
        print_refusal(
            &mut text,
            &Refusal::TooLong {
                place: 2_147_483_648,
            },
        )?;
        print_limit(&mut text, &[0])?;
        print_limit(&mut text, &[109, 18_446_744_073_709_551_615])?;
        print_alarm(&mut text)?;
        print_shared(
            &mut text,
            &Shared {
                solver: 3,
                after: 17,
                clause: List::from_slice(alloc, &[one, minus_four])?,
            },
        )?;
        let lines = b"s SATISFIABLE\nv 1 -2 0\n\
            s SATISFIABLE\nv 0\n\
            s UNSATISFIABLE\nc failed 0\n\
            s UNSATISFIABLE\nc failed 1 -4 0\n\
            c refused bad-token 2\n\
            c refused var-too-large 0\n\
            c refused too-many-lits 8\n\
            c refused truncated 3\n\
            c refused too-long 2147483648\n\
            s INDETERMINATE\nc limit 0\n\
            s INDETERMINATE\nc limit 109 18446744073709551615\n\
            s INDETERMINATE\nc alarm\n\
            c shared 3 17 1 -4 0\n";
        assert_eq!(rt; text.as_slice(), lines.as_slice());
        Ok(())
    }
}
