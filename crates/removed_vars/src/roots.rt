ghost use Rattle.std.specs.Prelude.{◌≡◌, Some, [], ◌∷◌, if◌then◌else◌, IfOk, IsTrue};
ghost use Rattle.std.specs.List.{list_any};
ghost use Rattle.rebuild_stack.specs.Entries.{named};
ghost use Rattle.rebuild_stack.specs.Roots.{root, turned};
ghost use Rattle.rebuild_stack.specs.PutIn.{same_lit, put_in, add_root, add_lit};
ghost use Rattle.removed_vars.specs.Signs.{TellsSigns};

use rebuild_stack::{Entry, Root};
use sat_lits::{List, NoMemory, Own, OwnLit};
use std::alloc::Global;
use std::collections::HashMap;

/// Up to how many literals are compared one by one, which is quicker than a table.
const FEW: usize = 12;

/// The own variable of an entry.
pub fn var_of(entry: &Entry) -> Own
    ensures { result.0 ≡ named entry.now }
{
    match entry {
        Entry::Fix(lit) => lit.var,
        Entry::Equal { var, .. } => *var,
        Entry::Gone { var, .. } => *var,
    }
}

/// The literal, or its negation where `negative`.
pub fn turned(negative: bool, lit: OwnLit) -> OwnLit
    ensures { result ≡ turned negative lit }
{
    OwnLit {
        var: lit.var,
        negative: if negative {
            !lit.negative
        } else {
            lit.negative
        },
    }
}

/// What a literal comes to where one entry is put in.
fn root_by(entry: &Entry, lit: OwnLit) -> Root
    ensures { result ≡ root (entry.now ∷ []) lit }
{
    match entry {
        Entry::Fix(fixed) => {
            if lit.var == fixed.var {
                return Root::Known(if lit.negative {
                    fixed.negative
                } else {
                    !fixed.negative
                });
            }
        }
        Entry::Equal { var, lit: by } => {
            if lit.var == *var {
                return Root::Last(turned(lit.negative, *by));
            }
        }
        Entry::Gone { var, .. } => {
            if lit.var == *var {
                return Root::Lost(*var);
            }
        }
    }
    Root::Last(lit)
}

/// Adds a literal to a clause that has none twice. `signs` has the sign of each of its literals by
/// the number of the variable. False comes exactly where the negation stands there.
fn add_lit(
    lits: &mut List<OwnLit>,
    signs: &mut HashMap<u32, bool>,
    lit: OwnLit,
) -> Result<bool, NoMemory>
    requires { TellsSigns signs.old lits.old }
    ensures value { IfOk result (λ more. add_lit lit lits.old ≡ (if more then Some lits.new else None)) }
    ensures signs { IfOk result (λ more. IsTrue more → TellsSigns signs.new lits.new) }
{
    match signs.insert(lit.var.0, lit.negative)? {
        Some(negative) => Ok(negative == lit.negative),
        None => {
            lits.push(lit)?;
            Ok(true)
        }
    }
}

/// Adds what a literal came to. False comes exactly where it settles the clause.
fn add_root(
    lits: &mut List<OwnLit>,
    signs: &mut HashMap<u32, bool>,
    root: Root,
) -> Result<bool, NoMemory>
    requires { TellsSigns signs.old lits.old }
    ensures value { IfOk result (λ more. add_root root (Some lits.old) ≡ (if more then Some lits.new else None)) }
    ensures signs { IfOk result (λ more. IsTrue more → TellsSigns signs.new lits.new) }
{
    match root {
        Root::Known(value) => Ok(!value),
        Root::Lost(_) => Ok(true),
        Root::Last(lit) => add_lit(lits, signs, lit),
    }
}

/// Whether a literal stands in a clause.
fn stands_in(lit: OwnLit, lits: &[OwnLit]) -> bool
    ensures { result ≡ list_any (same_lit lit) lits.now }
{
    lits.iter().any(|other| lit.var.0 == other.var.0 && lit.negative == other.negative)
}

/// Adds a literal to a short clause that has none twice. False comes exactly where the negation
/// stands there.
fn add_lit_to_few(lits: &mut List<OwnLit>, lit: OwnLit) -> Result<bool, NoMemory>
    ensures { IfOk result (λ more. add_lit lit lits.old ≡ (if more then Some lits.new else None)) }
{
    if stands_in(turned(true, lit), lits.as_slice()) {
        return Ok(false);
    }
    if !stands_in(lit, lits.as_slice()) {
        lits.push(lit)?;
    }
    Ok(true)
}

/// Adds what a literal came to, to a short clause. False comes exactly where it settles the clause.
fn add_root_to_few(lits: &mut List<OwnLit>, root: Root) -> Result<bool, NoMemory>
    ensures { IfOk result (λ more. add_root root (Some lits.old) ≡ (if more then Some lits.new else None)) }
{
    match root {
        Root::Known(value) => Ok(!value),
        Root::Lost(_) => Ok(true),
        Root::Last(lit) => add_lit_to_few(lits, lit),
    }
}

/// Merges what a few literals come to, by a look at all that are there.
fn put_in_few(alloc: Global, roots: &[Root]) -> Result<Option<List<OwnLit>>, NoMemory>
    ensures { IfOk result (λ clause. clause ≡ put_in (λ root. root) roots.now) }
{
    let mut lits = List::new(alloc);
    'merge: for root in roots {
        let open = add_root_to_few(&mut lits, *root)?;
        if !open {
            return Ok(None);
        }
    }
    Ok(Some(lits))
}

/// Merges what many literals come to, by a table of their signs.
fn put_in_many(alloc: Global, roots: &[Root]) -> Result<Option<List<OwnLit>>, NoMemory>
    ensures { IfOk result (λ clause. clause ≡ put_in (λ root. root) roots.now) }
{
    let mut lits = List::new(alloc);
    let mut signs = HashMap::new(alloc);
    'merge: for root in roots {
        let open = add_root(&mut lits, &mut signs, *root)?;
        if !open {
            return Ok(None);
        }
    }
    Ok(Some(lits))
}

/// The clause of what literals come to: repeats are merged, and what is false or lost is left out.
/// None comes exactly where one is true or stands beside its negation. The only error is want of
/// memory.
pub fn put_in(alloc: Global, roots: &[Root]) -> Result<Option<List<OwnLit>>, NoMemory>
    ensures { IfOk result (λ clause. clause ≡ put_in (λ root. root) roots.now) }
{
    if roots.len() <= FEW {
        put_in_few(alloc, roots)
    } else {
        put_in_many(alloc, roots)
    }
}

/// The clause with one entry put in. None comes exactly where it is satisfied or a tautology. The
/// only error is want of memory.
pub fn put_in_entry(
    alloc: Global,
    entry: &Entry,
    lits: &[OwnLit],
) -> Result<Option<List<OwnLit>>, NoMemory>
    ensures { IfOk result (λ clause. clause ≡ put_in (root (entry.now ∷ [])) lits.now) }
{
    let mut roots = Vec::new(alloc);
    for lit in lits {
        roots.push(root_by(entry, *lit))?;
    }
    let clause = put_in(alloc, &roots)?;
    Ok(clause)
}
