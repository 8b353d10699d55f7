ghost use Rattle.std.specs.Prelude.{◌≡◌, List, None, true, false, length, slice_index_or, IfOk, OnOk};
ghost use Rattle.rebuild_stack.specs.Roots.{is_lost, root_passes};
ghost use Rattle.rebuild_stack.specs.declared.entry.Root.{Root};
ghost use Rattle.rebuild_stack.specs.declared.entry.Root.TheVariants.{Last};
ghost use Rattle.var_maps.specs.Maps.{Maps};
ghost use Rattle.state_laws.specs.Held.{has_inner};
ghost use Rattle.assume_map.specs.Roots.{root_at};
ghost use Rattle.assume_map.specs.Walking.{Walked, IsMet, HasLit};

use rebuild_stack::Root;
use sat_lits::{InLit, List, NoMemory, OwnLit};
use std::alloc::Global;
use var_maps::VarMaps;

/// Which assumption came to a literal of a variable first, and the sign of that literal.
#[derive(Clone, Copy, Debug, PartialEq, Eq)]
pub(crate) struct Mark {
    position: u32,
    negative: bool,
}

/// A walk through assumptions: a mark for each own variable, and the literals that are left to be
/// assumed with the positions that they come from.
#[derive(Debug, Drop)]
pub(crate) struct Walk {
    marks: Vec<Option<Mark>>,
    pub(crate) lits: List<InLit>,
    pub(crate) positions: List<u32>,
}

impl Walk {
    /// A walk that met nothing, over this many own variables.
    pub(crate) fn new(alloc: Global, vars: u32) -> Result<Walk, NoMemory>
        ensures vars { IfOk result (λ walk. length walk.marks.items ≡ vars) }
        ensures none { IfOk result (λ walk. (m : Maps) (rs : List Root) → Walked m rs 0 walk) }
    {
        let mut marks = Vec::new(alloc);
        marks.resize(vars as usize, None)?;
        Ok(Walk {
            marks,
            lits: List::new(alloc),
            positions: List::new(alloc),
        })
    }

    /// Goes on by the assumption at a position, which comes to this. The positions of a clash are
    /// answered, if it makes one.
    pub(crate) fn meet(
        &mut self,
        maps: &VarMaps,
        root: Root,
        position: u32,
    ) -> Result<Option<List<u32>>, NoMemory>
        requires vars { length self.old.marks.items ≡ length maps.now.inners }
        requires kept { is_lost root ≡ false }
        requires active { root_passes (has_inner maps.now) root ≡ true }
        ensures vars { length self.new.marks.items ≡ length self.old.marks.items }
        ensures met { IfOk result (λ clash. (rs : List Root) → root_at rs position ≡ root
            → Walked maps.now rs position self.old → IsMet maps.now rs position self.new clash) }
    {
        match root {
            Root::Known(true) => Ok(None),
            Root::Known(false) => {
                let clash = List::from_slice(self.lits.allocator(), &[position])?;
                Ok(Some(clash))
            }
            Root::Last(lit) => self.meet_lit(maps, lit, position),
            Root::Lost(_) => unreachable!(),
        }
    }

    fn meet_lit(
        &mut self,
        maps: &VarMaps,
        lit: OwnLit,
        position: u32,
    ) -> Result<Option<List<u32>>, NoMemory>
        requires vars { length self.old.marks.items ≡ length maps.now.inners }
        requires active { has_inner maps.now lit ≡ true }
        ensures vars { length self.new.marks.items ≡ length self.old.marks.items }
        ensures met { IfOk result (λ clash. (rs : List Root) → root_at rs position ≡ Last lit
            → Walked maps.now rs position self.old → IsMet maps.now rs position self.new clash) }
    {
        match self.mark_of(lit) {
            None => {
                self.keep(maps, lit, position)?;
                Ok(None)
            }
            Some(mark) => {
                if mark.negative == lit.negative {
                    return Ok(None);
                }
                let clash = List::from_slice(self.lits.allocator(), &[mark.position, position])?;
                Ok(Some(clash))
            }
        }
    }

    /// The mark of a literal's variable.
    fn mark_of(&self, lit: OwnLit) -> Option<Mark>
        ensures { result ≡ slice_index_or self.now.marks.items lit.var.0 None }
    {
        self.marks.get(lit.var.0 as usize).copied().flatten()
    }

    /// Keeps the literal that the assumption at a position is the first to come to.
    fn keep(&mut self, maps: &VarMaps, lit: OwnLit, position: u32) -> Result<(), NoMemory>
        requires vars { length self.old.marks.items ≡ length maps.now.inners }
        requires active { has_inner maps.now lit ≡ true }
        ensures vars { length self.new.marks.items ≡ length self.old.marks.items }
        ensures ok { OnOk result (HasLit maps.now lit position self.old self.new) }
    {
        let stored = InLit {
            var: maps.to_inner(lit.var).unwrap(),
            negative: lit.negative,
        };
        self.lits.push(stored)?;
        self.positions.push(position)?;
        self.marks[lit.var.0 as usize] = Some(Mark {
            position,
            negative: lit.negative,
        });
        Ok(())
    }
}
