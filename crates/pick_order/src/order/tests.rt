ghost use Rattle.std.specs.Prelude.{◌≡◌, true, IsTrue};
ghost use Rattle.pick_order.specs.Orders.{HasPassedSet};

use super::*;
use std::process::Abort;
use std::test::Fail;

const fn literal(var: u32, negative: bool) -> InLit {
    InLit {
        var: Inner(var),
        negative,
    }
}

fn decide(rt: &impl Abort, trail: &mut Trail, lit: InLit) {
    assert!(rt; lit.var.0 < trail.reserved());
    assert!(rt; !is_set(trail, lit.var));
    trail.decide(lit);
}

/// A trail that decides these variables, each to be true.
fn trail_of(rt: &impl Abort, alloc: Global, vars: &[u32]) -> Result<Trail, NoMemory> {
    let mut trail = Trail::new(alloc);
    trail.reserve(9)?;
    for var in vars {
        decide(rt, &mut trail, literal(*var, false));
    }
    Ok(trail)
}

fn bump(rt: &impl Abort, order: &mut PickOrder, var: u32) {
    assert!(rt; order.preference_of(Inner(var)).is_some());
    order.bump(Inner(var));
}

fn keep_phase(rt: &impl Abort, order: &mut PickOrder, lit: InLit) {
    assert!(rt; order.preference_of(lit.var).is_some());
    order.keep_phase(lit);
}

fn activity_of(order: &PickOrder, var: u32) -> Option<u64> {
    Some(order.preference_of(Inner(var))?.activity)
}

/// Whether a trail sets every variable that an order passed over.
fn sets_passed(order: &PickOrder, trail: &Trail) -> bool
    ensures { IsTrue result → HasPassedSet order.now trail.now.steps }
{
    for number in 0..order.preferences.len() {
        let var = Inner(number as u32);
        if order.is_passed(var) && !is_set(trail, var) {
            return false;
        }
    }
    true
}

fn next_candidate(rt: &impl Abort, order: &mut PickOrder, trail: &Trail) -> Option<InLit> {
    assert!(rt; sets_passed(order, trail));
    order.next_candidate(trail)
}

#[test]
fn two_variables_are_picked_whatever_the_trail(rt: HostRuntime) -> Result<(), Fail> {
    let mut order = PickOrder::new(rt.alloc());
    order.prepare(&[Inner(0), Inner(1)], false)?;
    let none = trail_of(&rt, rt.alloc(), &[])?;
    let one = trail_of(&rt, rt.alloc(), &[0])?;
    let both = trail_of(&rt, rt.alloc(), &[0, 1])?;
    assert_eq!(rt; order.next(&none), Some(literal(0, true)));
    assert_eq!(rt; order.next(&one), Some(literal(1, true)));
    assert_eq!(rt; order.next(&both), None);
    assert_eq!(rt; order.next(&none), Some(literal(0, true)), "0 is back");
    assert_eq!(rt; order.next(&both), None);
    assert_eq!(rt; order.next(&one), Some(literal(1, true)), "1 is back");
    Ok(())
}

#[test]
fn a_variable_is_passed_until_it_is_put_back(rt: HostRuntime) -> Result<(), Fail> {
    let mut order = PickOrder::new(rt.alloc());
    order.prepare(&[Inner(0), Inner(1), Inner(3)], true)?;
    let both = trail_of(&rt, rt.alloc(), &[0, 1])?;
    let one = trail_of(&rt, rt.alloc(), &[1])?;
    assert_eq!(rt;
        next_candidate(&rt, &mut order, &both),
        Some(literal(3, false))
    );
    let passed = [true, true, false, false, false];
    for (var, passed) in passed.iter().enumerate() {
        assert_eq!(rt; order.is_passed(Inner(var as u32)), *passed, "of {var}");
    }
    order.put_back_unset(&one);
    assert!(rt; !order.is_passed(Inner(0)) && order.is_passed(Inner(1)));
    for var in [0, 2, 4, u32::MAX] {
        order.put_back(Inner(var));
        assert!(rt; order.is_passed(Inner(1)), "after {var}");
    }
    order.put_back(Inner(1));
    assert!(rt; !order.is_passed(Inner(1)));
    let none = trail_of(&rt, rt.alloc(), &[])?;
    assert_eq!(rt;
        next_candidate(&rt, &mut order, &none),
        Some(literal(0, false))
    );
    Ok(())
}

#[test]
fn a_bumped_variable_comes_first(rt: HostRuntime) -> Result<(), Fail> {
    let mut order = PickOrder::new(rt.alloc());
    order.prepare(&[Inner(7), Inner(2), Inner(5)], true)?;
    let none = trail_of(&rt, rt.alloc(), &[])?;
    let seven = trail_of(&rt, rt.alloc(), &[7])?;
    assert_eq!(rt;
        order.next(&none),
        Some(literal(2, false)),
        "the least number"
    );
    bump(&rt, &mut order, 7);
    bump(&rt, &mut order, 7);
    bump(&rt, &mut order, 5);
    assert_eq!(rt; order.next(&none), Some(literal(7, false)));
    assert_eq!(rt; order.next(&seven), Some(literal(5, false)));
    bump(&rt, &mut order, 7);
    assert_eq!(rt;
        order.next(&seven),
        Some(literal(5, false)),
        "7 is still set"
    );
    keep_phase(&rt, &mut order, literal(7, true));
    assert_eq!(rt; order.next(&none), Some(literal(7, true)));
    Ok(())
}

#[test]
fn what_is_known_outlives_prepare(rt: HostRuntime) -> Result<(), Fail> {
    let mut order = PickOrder::new(rt.alloc());
    order.prepare(&[Inner(0), Inner(3)], true)?;
    bump(&rt, &mut order, 3);
    keep_phase(&rt, &mut order, literal(0, true));
    order.prepare(&[Inner(3), Inner(4), Inner(0)], false)?;
    let none = trail_of(&rt, rt.alloc(), &[])?;
    let three = trail_of(&rt, rt.alloc(), &[3])?;
    let more = trail_of(&rt, rt.alloc(), &[0, 3])?;
    assert_eq!(rt; order.next(&none), Some(literal(3, false)));
    assert_eq!(rt; order.next(&three), Some(literal(0, true)));
    assert_eq!(rt; order.next(&more), Some(literal(4, true)));
    order.prepare(&[Inner(4)], false)?;
    assert_eq!(rt; order.next(&none), Some(literal(4, true)));
    assert_eq!(rt; order.preference_of(Inner(3)), None);
    Ok(())
}

#[test]
fn a_later_bump_counts_more(rt: HostRuntime) -> Result<(), Fail> {
    let mut order = PickOrder::new(rt.alloc());
    order.prepare(&[Inner(0), Inner(1)], false)?;
    bump(&rt, &mut order, 0);
    bump(&rt, &mut order, 1);
    assert_eq!(rt; activity_of(&order, 0), Some(1024));
    order.grow_increment();
    bump(&rt, &mut order, 1);
    assert_eq!(rt; activity_of(&order, 0), Some(1024));
    assert_eq!(rt; activity_of(&order, 1), Some(1024 + 1040));
    Ok(())
}

#[test]
fn activities_are_halved_at_the_limit(rt: HostRuntime) -> Result<(), Fail> {
    let mut order = PickOrder::new(rt.alloc());
    order.prepare(&[Inner(0), Inner(1)], false)?;
    bump(&rt, &mut order, 1);
    let mut last = Some(0);
    let mut halved = false;
    for _conflict in 0..4000_u32 {
        bump(&rt, &mut order, 0);
        order.grow_increment();
        let activity = activity_of(&order, 0);
        assert!(rt; activity <= Some(1 << 62));
        halved = halved || activity < last;
        last = activity;
    }
    assert!(rt; halved);
    assert_eq!(rt; activity_of(&order, 1), Some(0));
    Ok(())
}
