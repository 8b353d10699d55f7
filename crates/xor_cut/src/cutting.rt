ghost use Rattle.std.specs.Prelude.{◌≡◌, ◌+◌, ◌*◌, ◌<◌, ◌≤◌, ◌^◌, ℕ, Bool, true, false, Some, length, filter_map, nat_lt, nat_le, IfOk, IsTrue};
ghost use Rattle.std.specs.List.{list_all};
ghost use Rattle.sat_lits.specs.Conflicts.{cuts_of_count};
ghost use Rattle.xor_cut.specs.Pieces.{is_parity, are_satisfied, are_different, own_vars, first_piece, pieces, ExtendsOnce};

use crate::piece::Piece;
use crate::pieces::Pieces;
use sat_lits::{List, NoMemory, Own};
use std::alloc::Global;

/// How many times a parity over this many variables is cut.
fn cuts(count: usize) -> usize
    ensures { result ≡ cuts_of_count count }
{
    if count > 4 { (count - 3) / 2 } else { 0 }
}

/// The piece of the first three variables and a fresh one.
fn first_piece(alloc: Global, vars: &[Own], fresh: Own) -> Result<Piece, NoMemory>
    requires { 3 ≤ length vars.now }
    ensures { IfOk result (λ piece. piece ≡ first_piece vars.now fresh.0) }
{
    let mut first = List::from_slice(alloc, &vars[..3])?;
    first.push(fresh)?;
    Ok(Piece {
        vars: first,
        rhs: false,
        fresh: Some(fresh),
    })
}

/// Cuts a parity into pieces of at most four variables. While more than four variables remain, the
/// first three and a fresh one make a piece whose right side is false, and the fresh one goes to the
/// end of what remains. The last piece is what remains, with `rhs`. The fresh variables are
/// `next`, `next + 1` and so on.
///
/// The variables are different and below `next`, and the fresh ones are numbers of 32 bits. The only
/// error is want of memory.
pub fn cut(alloc: Global, vars: &[Own], rhs: bool, next: u32) -> Result<Pieces, NoMemory>
    requires different { IsTrue (are_different vars.now) }
    requires below { list_all (λ v. nat_lt v.0 next) vars.now ≡ true }
    requires room { next + cuts_of_count (length vars.now) ≤ 2 ^ 32 }
    ensures value { IfOk result (λ ps. ps ≡ pieces vars.now rhs next) }
    ensures count { IfOk result (λ ps. length ps ≡ cuts_of_count (length vars.now) + 1) }
    ensures fresh { IfOk result (λ ps. filter_map (λ p. p.fresh) ps ≡ own_vars next (cuts_of_count (length vars.now))) }
    ensures short { IfOk result (λ ps. list_all (λ p. nat_le (length p.vars) 4) ps ≡ true) }
    ensures distinct { IfOk result (λ ps. list_all (λ p. are_different p.vars) ps ≡ true) }
    ensures enough { IfOk result (λ ps. (w : ℕ → Bool) → are_satisfied w ps ≡ true → is_parity w vars.now rhs ≡ true) }
    ensures once { IfOk result (λ ps. (w : ℕ → Bool) → is_parity w vars.now rhs ≡ true → ExtendsOnce next (cuts_of_count (length vars.now)) ps w) }
{
    let mut queue = List::from_slice(alloc, vars)?;
    let mut pieces = Pieces::new(alloc);
    'cuts: for at in 0..cuts(vars.len()) {
        let fresh = Own(next + at as u32);
        pieces.push(first_piece(alloc, &queue.as_slice()[3 * at..], fresh)?)?;
        queue.push(fresh)?;
    }
    let vars = List::from_slice(alloc, &queue.as_slice()[3 * cuts(vars.len())..])?;
    pieces.push(Piece {
        vars,
        rhs,
        fresh: None,
    })?;
    Ok(pieces)
}

#[cfg(test)]
mod tests {
    use super::*;
    use std::process::Abort;
    use std::test::Fail;

    const FIVE: [Own; 5] = [Own(0), Own(1), Own(2), Own(3), Own(4)];

    fn has(piece: &Piece, vars: &[Own], rhs: bool, fresh: Option<Own>) -> bool {
        piece.vars.as_slice() == vars && piece.rhs == rhs && piece.fresh == fresh
    }

    fn check(rt: &impl Abort, pieces: &Pieces) {
        assert!(rt; pieces.len() == 2);
        let front = [Own(0), Own(1), Own(2), Own(5)];
        assert!(rt; has(pieces.get(0), &front, false, Some(Own(5))));
        assert!(rt; has(pieces.get(1), &[Own(3), Own(4), Own(5)], true, None));
    }

    #[test]
    fn five_variables_are_cut_once(rt: HostRuntime) -> Result<(), Fail> {
        check(&rt, &cut(rt.alloc(), &FIVE, true, 5)?);
        Ok(())
    }
}
