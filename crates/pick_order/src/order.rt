ghost use Rattle.std.specs.Prelude.{◌≡◌, ◌↔◌, ◌==◌, ℕ, ◌+◌, ◌/◌, ◌^◌, ◌<◌, ◌≤◌, ◌&&◌, [], true, false, not, nat_lt, map, length, IsTrue, IsSome, IsNone, IfSome, OnOk, OnErr, IfOk, is_some, slice_set, if◌then◌else◌, option_map};
ghost use Rattle.std.specs.List.{list_all};
ghost use Rattle.trail.specs.Trail.{set_in};
ghost use Rattle.pick_order.specs.Tournaments.{IsFirst, entrant};
ghost use Rattle.pick_order.specs.Preferences.{IsPick, AllSet, IsLimited, activity_in, fits_in, preference_in, candidate_in, prepared, raised, bumped, with_phase, rescaled_preference};
ghost use Rattle.pick_order.specs.Orders.{HasPassedSet, HasSamePassed, is_passed, fitting, grown_increment};
ghost use Rattle.pick_order.specs.Queues.{IsCarried, IsPlaced, HasLostSet};

use crate::preference::{Candidate, Preference, SCALE};
use crate::tournament::Tournament;
use sat_lits::{InLit, Inner, NoMemory};
use std::alloc::Global;
use std::marker::Model;
use trail::Trail;

#[cfg(test)]
mod tests;

/// The greatest activity.
const LIMIT: u64 = 1 << 62;

/// The least increment.
const LEAST: u64 = 1 << 10;

/// A conflict raises the increment by one part in so many. (In floating point an increment that is
/// divided by 0.95 after each conflict is usual: Eén and Sörensson, 2003. Here learned clauses are
/// kept by age, and a slower growth takes fewer conflicts.)
const GROWTH: u64 = 64;

/// The active variables, each with an activity and a phase, in the order in which they are decided.
/// Those that a decision passed over as set are no candidates until they are put back.
#[derive(Debug, Drop)]
pub struct PickOrder {
    // By variable, what is known of it where it is active.
    preferences: Vec<Option<Preference>>,
    // The candidates for the next decision, by variable.
    tournament: Tournament,
    // What the next bump adds to an activity.
    increment: u64,
}

impl Model for PickOrder {
    ghost use Rattle.pick_order.specs.Orders.{Order};

    ghost Value = { Order };

    ghost use Rattle.pick_order.specs.Inside.{order_of, IsOrdered};

    ghost view = { order_of };

    ghost invariant = { IsOrdered };
}

impl PickOrder {
    /// An order with no active variable. It takes no memory.
    pub fn new(alloc: Global) -> PickOrder
        ensures { result ≡ record { known = []; candidates = []; increment = 1024 } }
    {
        PickOrder {
            preferences: Vec::new(alloc),
            tournament: Tournament::new(alloc),
            increment: LEAST,
        }
    }

    /// Takes over the active variables, and these alone, all as candidates. Those that were active
    /// keep their activity and their phase. A new one gets the activity 0 and the given phase. The
    /// only error is want of memory, and nothing changes then.
    pub fn prepare(&mut self, active: &[Inner], phase: bool) -> Result<(), NoMemory>
        ensures ok { OnOk result ((v : ℕ) → preference_in self.new.known v ≡ prepared active.now phase self.old.known v) }
        ensures passed { OnOk result ((v : ℕ) → is_passed self.new v ≡ false) }
        ensures increment { OnOk result (self.new.increment ≡ self.old.increment) }
        ensures err { OnErr result (self.new ≡ self.old) }
    {
        let alloc = *self.preferences.allocator();
        let preferences = take_over(alloc, active, phase, &self.preferences)?;
        let tournament = Tournament::over(alloc, &preferences)?;
        *self = PickOrder {
            preferences,
            tournament,
            increment: self.increment,
        };
        Ok(())
    }

    /// The active variable that a trail leaves unset and that has the greatest activity, the least
    /// number where several have it, as a literal with its phase. None exactly where every active
    /// variable is set.
    ///
    /// Any trail will do. So each call walks over all variables, to make those that were passed
    /// over candidates again where the trail leaves them unset.
    pub fn next(&mut self, trail: &Trail) -> Option<InLit>
        ensures none { IsNone result ↔ AllSet self.old.known trail.now.steps }
        ensures some { IfSome result (λ l. (p : Preference) × IsPick self.old.known trail.now.steps l p) }
        ensures same { self.new ≡ record self.old { candidates = self.new.candidates } }
        ensures passed { HasPassedSet self.new trail.now.steps }
    {
        self.put_back_unset(trail);
        self.next_candidate(trail)
    }

    /// What `next` answers, with no walk over all variables, for a trail that sets every variable
    /// that was passed over: what it no longer sets is put back before, by `put_back`, or by
    /// `put_back_unset` where the trail has nothing to do with the last one. Each variable that is
    /// passed over here costs a logarithmic step.
    pub fn next_candidate(&mut self, trail: &Trail) -> Option<InLit>
        requires { HasPassedSet self.old trail.now.steps }
        ensures none { IsNone result ↔ AllSet self.old.known trail.now.steps }
        ensures some { IfSome result (λ l. (p : Preference) × IsPick self.old.known trail.now.steps l p) }
        ensures same { self.new ≡ record self.old { candidates = self.new.candidates } }
        ensures passed { HasPassedSet self.new trail.now.steps }
    {
        let first = pass_over(&mut self.tournament, trail)?;
        let preference = self.preferences[first.var.0 as usize].unwrap();
        Some(InLit {
            var: first.var,
            negative: !preference.phase,
        })
    }

    /// Makes a variable that was passed over a candidate again, in a logarithmic step. Nothing
    /// changes where it was not.
    pub fn put_back(&mut self, var: Inner)
        ensures same { self.new ≡ record self.old { candidates = self.new.candidates } }
        ensures passed { (v : ℕ) → is_passed self.new v ≡ (is_passed self.old v && not (v == var.0)) }
    {
        if self.is_passed(var) {
            let candidate = candidate_of(&self.preferences, var);
            self.tournament.enter(var.0 as usize, candidate);
        }
    }

    /// Makes all variables that were passed over and that a trail leaves unset candidates again, in
    /// one walk over all variables. Then `next_candidate` may be asked of that trail, whatever it
    /// has to do with the last one.
    pub fn put_back_unset(&mut self, trail: &Trail)
        ensures same { self.new ≡ record self.old { candidates = self.new.candidates } }
        ensures passed { (v : ℕ) → is_passed self.new v ≡ (is_passed self.old v && set_in trail.now.steps v) }
        ensures set { HasPassedSet self.new trail.now.steps }
    {
        for number in 0..self.preferences.len() {
            let var = Inner(number as u32);
            if !is_set(trail, var) {
                self.put_back(var);
            }
        }
    }

    /// Whether a variable was passed over, which is to say that it is active and no candidate.
    pub fn is_passed(&self, var: Inner) -> bool
        ensures { result ≡ is_passed self.now var.0 }
    {
        let place = var.0 as usize;
        place < self.preferences.len()
            && self.preferences[place].is_some()
            && self.tournament.entrant(place).is_none()
    }

    /// Raises the activity of an active variable by the increment, and no other. Where it would
    /// pass 2^62, all activities and the increment are halved 32 times first, rounded down, but the
    /// increment stays 1024 or more. So a walk over all variables is rare where the increment grows
    /// by `grow_increment` alone.
    pub fn bump(&mut self, var: Inner)
        requires { IsSome (preference_in self.old.known var.0) }
        ensures known { self.new.known ≡ bumped var.0 self.old.increment self.old.known }
        ensures passed { HasSamePassed self.old self.new }
        ensures increment { self.new.increment ≡ fitting self.old.known var.0 self.old.increment }
        ensures least { 1024 ≤ self.old.increment }
    {
        let by = make_room(
            &mut self.preferences,
            &mut self.tournament,
            var,
            self.increment,
        );
        raise(&mut self.preferences, &mut self.tournament, var, by);
        self.increment = by;
    }

    /// Raises the increment by a part in 64, up to 2^62, so that variables that are bumped later
    /// come before those that were bumped as often earlier. This is for the end of each conflict.
    pub fn grow_increment(&mut self)
        ensures { self.new ≡ record self.old { increment = grown_increment self.old.increment } }
    {
        self.increment = (self.increment + self.increment / GROWTH).min(LIMIT);
    }

    /// The phase of an active variable becomes the sign of a literal.
    pub fn keep_phase(&mut self, lit: InLit)
        requires { IsSome (preference_in self.old.known lit.var.0) }
        ensures { self.new ≡ record self.old { known = with_phase lit.var.0 (not lit.negative) self.old.known } }
    {
        let place = lit.var.0 as usize;
        let preference = self.preferences[place].unwrap();
        self.preferences[place] = Some(Preference {
            activity: preference.activity,
            phase: !lit.negative,
        });
    }

    /// What is known of a variable, or None exactly where it is not active. No activity is above
    /// 2^62.
    pub fn preference_of(&self, var: Inner) -> Option<Preference>
        ensures value { result ≡ preference_in self.now.known var.0 }
        ensures limit { IsLimited self.now.known }
    {
        known_of(&self.preferences, var)
    }
}

/// The active variables with what was known of them, or what is said of new ones.
fn take_over(
    alloc: Global,
    active: &[Inner],
    phase: bool,
    known: &[Option<Preference>],
) -> Result<Vec<Option<Preference>>, NoMemory>
    requires { IsLimited known.now }
    ensures taken { IfOk result (λ xs. (v : ℕ) → preference_in xs.items v ≡ prepared active.now phase known.now v) }
    ensures limit { IfOk result (λ xs. IsLimited xs.items) }
    ensures numbers { IfOk result (λ xs. length xs.items ≤ 2 ^ 32) }
{
    let mut taken = Vec::new(alloc);
    taken.resize(number_above(active), None)?;
    for var in active {
        let new = Preference { activity: 0, phase };
        let preference = known_of(known, *var).unwrap_or(new);
        taken[var.0 as usize] = Some(preference);
    }
    Ok(taken)
}

/// What is known of a variable, if it is active.
fn known_of(preferences: &[Option<Preference>], var: Inner) -> Option<Preference>
    ensures { result ≡ preference_in preferences.now var.0 }
{
    let place = var.0 as usize;
    if place < preferences.len() {
        preferences[place]
    } else {
        None
    }
}

/// A variable as a candidate, if it is active.
fn candidate_of(preferences: &[Option<Preference>], var: Inner) -> Option<Candidate>
    ensures { result ≡ candidate_in preferences.now var.0 }
{
    let activity = known_of(preferences, var)?.activity;
    Some(Candidate { activity, var })
}

/// The least number above those of all variables.
fn number_above(vars: &[Inner]) -> usize
    ensures above { IsTrue (list_all (λ a. nat_lt a.0 result) vars.now) }
    ensures limit { result ≤ 2 ^ 32 }
{
    let mut above = 0;
    for var in vars {
        above = above.max(var.0 as usize + 1);
    }
    above
}

/// Whether a trail sets a variable.
fn is_set(trail: &Trail, var: Inner) -> bool
    ensures { result ≡ set_in trail.now.steps var.0 }
{
    trail.level_of(var).is_some()
}

/// The first candidate that a trail leaves unset. Those before it are candidates no more.
fn pass_over(tournament: &mut Tournament, trail: &Trail) -> Option<Candidate>
    requires { IsPlaced tournament.old }
    ensures lost { HasLostSet trail.now.steps tournament.old tournament.new }
    ensures first { IsFirst tournament.new result }
    ensures unset { IfSome result (λ a. set_in trail.now.steps a.var.0 ≡ false) }
{
    'first: while let Some(first) = tournament.first() {
        if !is_set(trail, first.var) {
            return Some(first);
        }
        tournament.enter(first.var.0 as usize, None);
    }
    None
}

/// Where the activity of a variable would pass the limit, rescales all activities and the increment.
/// Gives the increment that fits then.
fn make_room(
    preferences: &mut [Option<Preference>],
    tournament: &mut Tournament,
    var: Inner,
    increment: u64,
) -> u64
    requires active { IsSome (preference_in preferences.old var.0) }
    requires limit { IsLimited preferences.old }
    requires least { 1024 ≤ increment }
    requires within { increment ≤ 2 ^ 62 }
    ensures value { result ≡ fitting preferences.old var.0 increment }
    ensures order { preferences.new ≡ (if fits_in preferences.old var.0 increment then preferences.old else map (option_map rescaled_preference) preferences.old) }
    ensures carried { IsCarried preferences.old tournament.old preferences.new tournament.new }
    ensures limit { IsLimited preferences.new }
    ensures room { activity_in preferences.new var.0 + result ≤ 2 ^ 62 }
    ensures least { 1024 ≤ result }
{
    let activity = preferences[var.0 as usize].unwrap().activity;
    if activity + increment <= LIMIT {
        return increment;
    }
    rescale_all(preferences);
    tournament.rescale();
    (increment / SCALE).max(LEAST)
}

/// Rescales all activities.
fn rescale_all(preferences: &mut [Option<Preference>])
    ensures { (v : ℕ) → preference_in preferences.new v ≡ option_map rescaled_preference (preference_in preferences.old v) }
{
    for preference in preferences.iter_mut() {
        if let Some(p) = preference {
            p.activity /= SCALE;
        }
    }
}

/// Adds to the activity of an active variable, also where it is a candidate.
fn raise(preferences: &mut [Option<Preference>], tournament: &mut Tournament, var: Inner, by: u64)
    requires active { IsSome (preference_in preferences.old var.0) }
    requires sized { length tournament.old ≡ length preferences.old }
    requires limit { IsLimited preferences.old }
    requires room { activity_in preferences.old var.0 + by ≤ 2 ^ 62 }
    ensures order { preferences.new ≡ raised var.0 by preferences.old }
    ensures carried { IsCarried preferences.old tournament.old preferences.new tournament.new }
    ensures limit { IsLimited preferences.new }
{
    let place = var.0 as usize;
    let preference = preferences[place].unwrap();
    let activity = preference.activity + by;
    preferences[place] = Some(Preference {
        activity,
        phase: preference.phase,
    });
    if tournament.entrant(place).is_some() {
        tournament.enter(place, Some(Candidate { activity, var }));
    }
}
