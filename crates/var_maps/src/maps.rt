ghost use Rattle.std.specs.Prelude.{◌≡◌, ◌+◌, ◌<◌, ◌≤◌, ◌^◌, ◌∷◌, ◌++◌, [], Some, None, true, length, slice_get, IsSome, IsOk, IfOk, OnOk, OnErr};
ghost use Rattle.var_maps.specs.Maps.{Maps, Matched, Added, Revived, retired, plain, no_maps, inner_at, outer_at, owner_at};

use sat_lits::{Inner, NoMemory, Own, Var};
use std::alloc::Global;
use std::marker::Model;

/// The variables of one solver, in order of creation, with their outer and inner numbers.
#[derive(Debug, Drop)]
pub struct VarMaps {
    inners: Vec<Option<Inner>>,
    outer_numbers: Vec<Option<Var>>,
    owners: Vec<Option<Own>>,
    outers: Vec<Own>,
}

impl Model for VarMaps {
    ghost use Rattle.var_maps.specs.Maps.{Maps};

    ghost Value = { Maps };

    ghost use Rattle.var_maps.specs.Kept.{maps_of, IsKept};

    ghost view = { maps_of };

    ghost invariant = { IsKept };
}

impl VarMaps {
    /// No variables. It takes no memory.
    pub fn new(alloc: Global) -> VarMaps
        ensures { plain result ≡ no_maps }
    {
        VarMaps {
            inners: Vec::new(alloc),
            outer_numbers: Vec::new(alloc),
            owners: Vec::new(alloc),
            outers: Vec::new(alloc),
        }
    }

    /// Makes room for this many calls of `add_outer`, `add_private` and `revive`. The only error
    /// is want of memory, and it comes only where that room is not there yet.
    pub fn reserve(&mut self, more: u32) -> Result<(), NoMemory>
        ensures ok { OnOk result (more ≤ self.new.spare) }
        ensures same { plain self.new ≡ plain self.old }
        ensures spare { self.old.spare ≤ self.new.spare }
        ensures succeeds { more ≤ self.old.spare → IsOk result }
    {
        self.inners.reserve(more as usize)?;
        self.outer_numbers.reserve(more as usize)?;
        self.owners.reserve(more as usize)?;
        self.outers.reserve(more as usize)?;
        Ok(())
    }

    /// Adds an active variable that stands for the caller's next one. The only error is want of
    /// memory, and the maps then stay as they were.
    pub fn add_outer(&mut self) -> Result<Own, NoMemory>
        requires { length self.old.inners < 2 ^ 31 }
        ensures ok { IfOk result (λ own. Added (Some (record { 0 = length self.old.outers })) own self.old self.new) }
        ensures outers { IfOk result (λ own. self.new.outers ≡ self.old.outers ++ own ∷ []) }
        ensures err { OnErr result (plain self.new ≡ plain self.old) }
        ensures spare { self.old.spare ≤ self.new.spare + 1 }
        ensures succeeds { 1 ≤ self.old.spare → IsOk result }
    {
        self.reserve(1)?;
        let own = Own(self.inners.len() as u32);
        let outer = Var(self.outers.len() as u32);
        self.inners.push(Some(Inner(own.0))).unwrap();
        self.owners.push(Some(own)).unwrap();
        self.outer_numbers.push(Some(outer)).unwrap();
        self.outers.push(own).unwrap();
        Ok(own)
    }

    /// Adds an active variable that stands for none of the caller's. Its inner number is `inner_len`.
    /// The only error is want of memory, and the maps then stay as they were.
    pub fn add_private(&mut self) -> Result<Own, NoMemory>
        requires { length self.old.inners < 2 ^ 31 }
        ensures ok { IfOk result (λ own. Added None own self.old self.new) }
        ensures last { IfOk result (λ own. self.new.owners ≡ self.old.owners ++ Some own ∷ []) }
        ensures outers { self.new.outers ≡ self.old.outers }
        ensures err { OnErr result (plain self.new ≡ plain self.old) }
        ensures spare { self.old.spare ≤ self.new.spare + 1 }
        ensures succeeds { 1 ≤ self.old.spare → IsOk result }
    {
        self.reserve(1)?;
        let own = Own(self.inners.len() as u32);
        self.inners.push(Some(Inner(own.0))).unwrap();
        self.owners.push(Some(own)).unwrap();
        self.outer_numbers.push(None).unwrap();
        Ok(own)
    }

    /// The own variable that stands for a variable of the caller.
    pub fn to_own(&self, outer: Var) -> Own
        requires { outer.0 < length self.now.outers }
        ensures value { slice_get self.now.outers outer.0 ≡ Some result }
        ensures matched { Matched self.now }
    {
        self.outers[outer.0 as usize]
    }

    /// The caller's variable that a variable stands for. None comes exactly where it is private.
    pub fn to_outer(&self, own: Own) -> Option<Var>
        requires { own.0 < length self.now.inners }
        ensures value { result ≡ outer_at self.now own.0 }
        ensures matched { Matched self.now }
    {
        self.outer_numbers[own.0 as usize]
    }

    /// The inner number of a variable. None comes exactly where it is not active.
    pub fn to_inner(&self, own: Own) -> Option<Inner>
        requires { own.0 < length self.now.inners }
        ensures value { result ≡ inner_at self.now own.0 }
        ensures matched { Matched self.now }
    {
        self.inners[own.0 as usize]
    }

    /// The active variable that has an inner number. None comes exactly where no variable has it.
    pub fn at_inner(&self, inner: Inner) -> Option<Own>
        ensures value { result ≡ owner_at self.now inner.0 }
        ensures matched { Matched self.now }
    {
        self.owners.get(inner.0 as usize).copied().flatten()
    }

    /// Makes an active variable one that is not, and frees its inner number.
    pub fn retire(&mut self, own: Own)
        requires { IsSome (inner_at self.old own.0) }
        ensures retired { plain self.new ≡ plain (retired own.0 self.old) }
        ensures spare { self.old.spare ≤ self.new.spare }
    {
        let at = own.0 as usize;
        let inner = self.inners[at].unwrap();
        self.inners[at] = None;
        self.owners[inner.0 as usize] = None;
    }

    /// Makes a variable active again, with a free inner number. The only error is want of memory,
    /// and the maps then stay as they were.
    pub fn revive(&mut self, own: Own) -> Result<Inner, NoMemory>
        requires there { own.0 < length self.old.inners }
        requires retired { inner_at self.old own.0 ≡ None }
        ensures ok { IfOk result (λ inner. Revived own inner self.old self.new) }
        ensures err { OnErr result (plain self.new ≡ plain self.old) }
        ensures spare { self.old.spare ≤ self.new.spare + 1 }
        ensures succeeds { 1 ≤ self.old.spare → IsOk result }
    {
        let inner = Inner(own.0);
        self.inners[own.0 as usize] = Some(inner);
        self.owners[inner.0 as usize] = Some(own);
        Ok(inner)
    }

    /// The number of variables.
    pub fn own_len(&self) -> u32
        ensures value { result ≡ length self.now.inners }
        ensures matched { Matched self.now }
    {
        self.inners.len() as u32
    }

    /// The number of variables that stand for one of the caller's.
    pub fn outer_count(&self) -> u32
        ensures value { result ≡ length self.now.outers }
        ensures matched { Matched self.now }
    {
        self.outers.len() as u32
    }

    /// A number that is greater than every inner number in use, and at most the number of variables.
    pub fn inner_len(&self) -> u32
        ensures value { result ≡ length self.now.owners }
        ensures few { result ≤ 2 ^ 31 }
        ensures matched { Matched self.now }
    {
        self.owners.len() as u32
    }
}

#[cfg(test)]
mod tests {
    use super::*;
    use std::process::Abort;
    use std::test::Fail;

    /// Adds two outer variables and then a private one.
    fn add_three(rt: &impl Abort, maps: &mut VarMaps) -> Result<[Own; 3], NoMemory> {
        assert!(rt; maps.own_len() == 0);
        let first = maps.add_outer()?;
        assert!(rt; maps.own_len() == 1);
        let second = maps.add_outer()?;
        assert!(rt; maps.own_len() == 2);
        let third = maps.add_private()?;
        Ok([first, second, third])
    }

    fn inner_of(rt: &impl Abort, maps: &VarMaps, own: Own) -> Option<Inner> {
        assert!(rt; own.0 < maps.own_len());
        maps.to_inner(own)
    }

    fn outer_of(rt: &impl Abort, maps: &VarMaps, own: Own) -> Option<Var> {
        assert!(rt; own.0 < maps.own_len());
        maps.to_outer(own)
    }

    fn retire(rt: &impl Abort, maps: &mut VarMaps, own: Own) {
        assert!(rt; own.0 < maps.own_len());
        assert!(rt; maps.to_inner(own).is_some());
        maps.retire(own);
    }

    fn revive(rt: &impl Abort, maps: &mut VarMaps, own: Own) -> Result<Inner, NoMemory> {
        assert!(rt; own.0 < maps.own_len());
        assert!(rt; maps.to_inner(own).is_none());
        maps.revive(own)
    }

    #[test]
    fn variables_are_numbered_in_order(rt: HostRuntime) -> Result<(), Fail> {
        let mut maps = VarMaps::new(rt.alloc());
        maps.reserve(3)?;
        let owns = add_three(&rt, &mut maps)?;
        assert_eq!(rt; owns, [Own(0), Own(1), Own(2)]);
        Ok(())
    }

    #[test]
    fn a_retired_variable_is_revived(rt: HostRuntime) -> Result<(), Fail> {
        let mut maps = VarMaps::new(rt.alloc());
        add_three(&rt, &mut maps)?;
        retire(&rt, &mut maps, Own(0));
        assert_eq!(rt; inner_of(&rt, &maps, Own(0)), None);
        assert_eq!(rt; maps.at_inner(Inner(0)), None);
        let inner = revive(&rt, &mut maps, Own(0))?;
        assert_eq!(rt; inner, Inner(0));
        assert_eq!(rt; inner_of(&rt, &maps, Own(0)), Some(Inner(0)));
        assert_eq!(rt; maps.at_inner(Inner(0)), Some(Own(0)));
        assert_eq!(rt; maps.inner_len(), 3);
        Ok(())
    }

    #[test]
    fn a_variable_added_after_a_retirement_has_its_own_number(rt: HostRuntime) -> Result<(), Fail> {
        let mut maps = VarMaps::new(rt.alloc());
        add_three(&rt, &mut maps)?;
        retire(&rt, &mut maps, Own(1));
        assert!(rt; maps.own_len() == 3);
        let added = maps.add_outer()?;
        assert_eq!(rt; added, Own(3));
        assert_eq!(rt; inner_of(&rt, &maps, added), Some(Inner(3)));
        assert_eq!(rt; maps.at_inner(Inner(1)), None);
        Ok(())
    }

    #[test]
    fn private_variables_have_no_outer_number(rt: HostRuntime) -> Result<(), Fail> {
        let mut maps = VarMaps::new(rt.alloc());
        add_three(&rt, &mut maps)?;
        assert_eq!(rt; (maps.own_len(), maps.outer_count()), (3, 2));
        let outers = [Some(Var(0)), Some(Var(1)), None];
        for (own, outer) in [Own(0), Own(1), Own(2)].into_iter().zip(outers) {
            assert_eq!(rt; outer_of(&rt, &maps, own), outer);
        }
        assert!(rt; maps.outer_count() == 2);
        assert_eq!(rt; maps.to_own(Var(1)), Own(1));
        Ok(())
    }
}
