ghost use Rattle.std.specs.Prelude.{◌≡◌, true, false, IfOk};
ghost use Rattle.std.specs.List.{list_all};
ghost use Rattle.rebuild_stack.specs.Entries.{is_within};

use crate::{Block, Entry, RebuildStack};
use sat_lits::{NoMemory, Own, OwnLit};
use std::alloc::Global;
use std::test::Fail;

fn positive(var: u32) -> OwnLit
    ensures { result ≡ record { var = record { 0 = var }; negative = false } }
{
    OwnLit {
        var: Own(var),
        negative: false,
    }
}

fn negative(var: u32) -> OwnLit
    ensures { result ≡ record { var = record { 0 = var }; negative = true } }
{
    OwnLit {
        var: Own(var),
        negative: true,
    }
}

/// The own variable 0 was taken out with the clauses `1 2` and `-1 3` in DIMACS numbers, and then
/// the own variable 1 was replaced by the negation of the own variable 2.
fn two_entries(alloc: Global) -> Result<RebuildStack, NoMemory>
    ensures { IfOk result (λ stack. list_all (is_within 3) stack ≡ true) }
{
    let mut clauses = Block::new(alloc);
    clauses.push(&[positive(0), positive(1)])?;
    clauses.push(&[negative(0), positive(2)])?;
    let mut stack = RebuildStack::new(alloc);
    stack.push(Entry::Gone {
        var: Own(0),
        clauses,
    })?;
    stack.push(Entry::Equal {
        var: Own(1),
        lit: negative(2),
    })?;
    Ok(stack)
}

/// A stack on which one literal of the own variable 1 is fixed.
fn one_fixed(alloc: Global, lit: OwnLit) -> Result<RebuildStack, NoMemory>
    requires { lit.var.0 ≡ 1 }
    ensures { IfOk result (λ stack. list_all (is_within 2) stack ≡ true) }
{
    let mut stack = RebuildStack::new(alloc);
    stack.push(Entry::Fix(lit))?;
    Ok(stack)
}

/// The number of the variable that an entry gives a value.
fn var_of(entry: &Entry) -> u32 {
    match entry {
        Entry::Fix(lit) => lit.var.0,
        Entry::Equal { var, .. } | Entry::Gone { var, .. } => var.0,
    }
}

#[test]
fn values_are_rebuilt_from_the_newest_entry(rt: HostRuntime) -> Result<(), Fail> {
    let stack = two_entries(rt.alloc())?;
    let rows = [
        ([false, false, false], [false, true, false]),
        ([true, false, false], [false, true, false]),
        ([false, true, true], [true, false, true]),
        ([true, true, true], [true, false, true]),
    ];
    for (before, after) in rows {
        let mut values = before;
        stack.rebuild(&mut values);
        assert_eq!(rt; values, after, "at {before:?}");
    }
    Ok(())
}

#[test]
fn a_fixed_literal_is_true(rt: HostRuntime) -> Result<(), Fail> {
    for (lit, value) in [(positive(1), true), (negative(1), false)] {
        let stack = one_fixed(rt.alloc(), lit)?;
        for before in [[false, false], [false, true]] {
            let mut values = before;
            stack.rebuild(&mut values);
            assert_eq!(rt; values, [false, value], "at {before:?}");
        }
    }
    Ok(())
}

#[test]
fn entries_close_up_where_others_are_taken_out(rt: HostRuntime) -> Result<(), Fail> {
    let mut stack = RebuildStack::new(rt.alloc());
    for var in [0, 1, 0, 2] {
        stack.push(Entry::Gone {
            var: Own(var),
            clauses: Block::new(rt.alloc()),
        })?;
    }
    stack.push(Entry::Fix(positive(1)))?;
    assert_eq!(rt; stack.block_of(Own(0)), Some(2));
    let rows = [
        (3, [Some(2), Some(1), Some(3)], 5),
        (1, [Some(1), None, Some(2)], 3),
        (0, [None, None, Some(0)], 1),
    ];
    for (gone, places, left) in rows {
        stack.retain(|entry| var_of(entry) != gone);
        let found = [
            stack.block_of(Own(0)),
            stack.block_of(Own(1)),
            stack.block_of(Own(2)),
        ];
        assert_eq!(rt; found, places, "without {gone}");
        assert_eq!(rt; stack.entries().len(), left);
    }
    Ok(())
}

#[test]
fn a_block_keeps_its_clauses(rt: HostRuntime) -> Result<(), Fail> {
    let mut block = Block::new(rt.alloc());
    assert_eq!(rt; block.len(), 0);
    block.push(&[positive(0), negative(1)])?;
    block.push(&[])?;
    block.push(&[negative(2)])?;
    assert_eq!(rt; block.len(), 3);
    assert_eq!(rt; block.get(0), [positive(0), negative(1)].as_slice());
    assert_eq!(rt; block.get(1), [].as_slice());
    assert_eq!(rt; block.get(2), [negative(2)].as_slice());
    Ok(())
}
