ghost use Rattle.std.specs.Prelude.{◌≡◌, ◌≢◌, ◌+◌, ◌-◌, ◌<◌, ◌≤◌, ◌^◌, List, [], false, true, length, map, nat_lt, slice_index, option_map, IfOk, IfSome, OnOk, OnErr, IsTrue};
ghost use Rattle.std.specs.List.{list_all};
ghost use Rattle.std.specs.List.Sorted.{IsStrictlyIncreasing};
ghost use Rattle.sat_lits.specs.Formulas.{Extends, no_problem, names_known};
ghost use Rattle.sat_lits.specs.Logs.{IsLegalLog};
ghost use Rattle.sat_lits.specs.declared.formula.Item.TheVariants.{Clause};
ghost use Rattle.sat_lits.specs.declared.shared.Shared.{Shared};
ghost use Rattle.sat_lits.specs.declared.verdict.Verdict.TheVariants.{Unsat};
ghost use Rattle.state_laws.specs.Conditions.{IsContradicted};
ghost use Rattle.state_laws.specs.Kernel.{state_of, Standing};
ghost use Rattle.sync_laws.specs.Met.{KeepsMet};
ghost use Rattle.sync_laws.specs.Steps.{IsTurn};
ghost use Rattle.data_sync.specs.Taking.{others};
ghost use Rattle.search.specs.Answers.{IsInnerModel, AreFailed};
ghost use Rattle.analyze.specs.Counting.{saturated};
ghost use Rattle.one_solver.specs.Roots.{is_free};
ghost use Rattle.one_solver.specs.Settled.{IsDone};
ghost use Rattle.one_solver.specs.Learned.{HasFewLong};
ghost use Rattle.one_solver.specs.Parts.{problem_in, SameCall, NoExchange, AssumesKnown, CanAssume};
ghost use Rattle.one_solver.specs.InStep.{IsInStep, IsSettled, EntriesFollow, GoesOn};
ghost use Rattle.one_solver.specs.Assuming.{IsMappedTo, AreContradicted};
ghost use Rattle.one_solver.specs.Units.{FixesUnits, HasNoUnits};
ghost use Rattle.one_solver.specs.Steps.{IsUnderWay, StepsRight, IsTidy, IsRefuted, HasNoModel, IsVerdictOrNone, IsOverOrNone};

use crate::answer::StepAnswer;
use crate::free::free_lits;
use crate::settle::settle;
use crate::take::take_formula;
use crate::tidy::tidy;
use analyze::Tally;
use assume_map::{Mapped, failed_lits, map_assumptions};
use data_sync::SyncBook;
use private_state::PrivateState;
use sat_lits::{Formula, InLit, List, Lit, NoMemory, Verdict};
use sat_ports::Alarm;
use search::{IntervalAnswer, Search};
use share_store::Store;
use std::alloc::Global;
use std::marker::Model;

/// How many learned clauses of more than two literals are kept after the first interval.
const KEPT: u64 = 2000;

/// How many more are kept after each further interval.
const KEPT_MORE: u64 = 100;

/// One solver with a state of its own.
///
/// It takes clauses and parities. A parity over more than four variables is cut into pieces of
/// four, each cut with a private variable of its own. It exchanges clauses with other solvers by a
/// log of shared ones. After want of memory from any call it still stands for the items and the
/// shared clauses that it took.
#[derive(Debug, Drop)]
pub struct OneSolver {
    alloc: Global,
    number: u32,
    state: PrivateState,
    book: SyncBook,
    took: u64,
    search: Search,
    tally: Tally,
    interval: u64,
    assumptions: List<Lit>,
}

impl Model for OneSolver {
    ghost use Rattle.one_solver.specs.Parts.{Parts};

    ghost Value = { Parts };

    ghost use Rattle.one_solver.specs.Kept.{parts_of, IsKept};

    ghost view = { parts_of };

    ghost invariant = { IsKept };
}

impl OneSolver {
    /// A solver that took nothing. The first phase of each variable is false where the number is
    /// even and true where it is odd. It is in step with every log. It takes no memory.
    pub fn new(alloc: Global, number: u32) -> OneSolver
        ensures number { result.number ≡ number }
        ensures problem { problem_in result ≡ no_problem }
        ensures okay { result.kernel.okay ≡ true }
        ensures conflicts { result.conflicts ≡ 0 }
        ensures interval { result.interval ≡ 0 }
        ensures took { result.took ≡ 0 }
        ensures entries { result.kernel.entries ≡ [] }
        ensures in_step { (log : List Shared) → IsInStep result log }
    {
        OneSolver {
            alloc,
            number,
            state: PrivateState::new(alloc),
            book: SyncBook::new(alloc),
            took: 0,
            search: Search::new(alloc, number % 2 == 1),
            tally: Tally::new(),
            interval: 0,
            assumptions: List::new(alloc),
        }
    }

    /// Grows to the formula's number of variables, and takes its items from `taken` on. Those that
    /// were taken are the formula's first ones. Eliminated variables that the new items name come back
    /// first. The only error is want of memory: then some of the items may be taken, in order, and none
    /// that was taken is lost.
    pub fn absorb(&mut self, formula: &Formula) -> Result<(), NoMemory>
        requires front { Extends (problem_in self.old) formula.now.problem }
        ensures ok { OnOk result (problem_in self.new ≡ formula.now.problem) }
        ensures front { Extends (problem_in self.new) formula.now.problem }
        ensures longer { Extends (problem_in self.old) (problem_in self.new) }
        ensures same { SameCall self.old self.new }
        ensures okay { self.new.kernel.okay ≡ self.old.kernel.okay }
        ensures exchange { NoExchange self.old self.new }
        ensures in_step { (log : List Shared) → IsInStep self.old log → IsInStep self.new log }
    {
        take_formula(self.alloc, &mut self.state, formula)
    }

    /// Starts a call under assumptions, whose variables are there: it made no conflict yet, and its
    /// first interval comes next. The only error is want of memory, after which the call that stands
    /// is one under no assumptions.
    ///
    /// First the eliminated variables that the assumptions name come back. Then the literals of the
    /// clauses of one literal are fixed and subsumed clauses are dropped, and equivalent variables
    /// are replaced and variables that meet the bound are eliminated until there are none of these:
    /// an active variable that meets the bound is left of an assumption, or is one that the solver
    /// keeps by its number.
    pub fn begin_call(&mut self, assumptions: &[Lit]) -> Result<(), NoMemory>
        requires few { length assumptions.now < 2 ^ 32 }
        requires known { IsTrue (names_known (problem_in self.old).vars (Clause assumptions.now)) }
        ensures begun { (self.new.conflicts ≡ 0) × (self.new.interval ≡ 0) }
        ensures assumptions { OnOk result (self.new.assumptions ≡ assumptions.now) }
        ensures under_way { IsUnderWay self.new }
        ensures fixed { OnOk result (IsTrue self.new.kernel.okay → FixesUnits self.old.kernel self.new.kernel) }
        ensures left { OnOk result (IsTrue self.new.kernel.okay → HasNoUnits self.new.kernel) }
        ensures done { OnOk result (IsTrue self.new.kernel.okay → IsDone self.new.kernel assumptions.now self.new.number) }
        ensures problem { problem_in self.new ≡ problem_in self.old }
        ensures number { self.new.number ≡ self.old.number }
        ensures refuted { self.old.kernel.okay ≡ false → self.new.kernel.okay ≡ false }
        ensures exchange { NoExchange self.old self.new }
        ensures in_step { (log : List Shared) → IsInStep self.old log → IsInStep self.new log }
    {
        self.tally = Tally::new();
        self.interval = 0;
        self.assumptions.clear();
        let kept = List::from_slice(self.alloc, assumptions)?;
        settle(self.alloc, &mut self.state, assumptions, self.number)?;
        self.assumptions = kept;
        Ok(())
    }

    /// Runs one interval of the call that `begin_call` started, where each earlier step of it
    /// answered `IntervalOver` and its conflicts are at most the limit. Each shared clause that the
    /// solver took follows from the items taken, as it does where the log was legal for them.
    ///
    /// A verdict is right for the items taken and the assumptions of the call: `Unsat` comes with
    /// assumptions that alone contradict the items, at rising positions, and no literal twice. Where
    /// the solver is not okay, it is `Unsat` of the empty list. `IntervalOver` comes exactly where
    /// the interval made its full number of conflicts without another answer, and the next interval
    /// is one longer. Then a solver that is okay holds no hard clause of one literal, and the newest
    /// 2000 learned clauses of more than two literals are left, and 100 more for each earlier
    /// interval of the call. `Spent` comes exactly where the conflicts of the call equal the limit
    /// without a verdict, and only where the limit is less than the number of conflicts that is
    /// enough for the items taken. `Asked` comes only below the limit, where the count of `stop` rose
    /// in this call.
    ///
    /// The conflicts of the call never exceed the limit, and after any answer but `IntervalOver` the
    /// same interval comes next. Before each interval the variables of the assumptions are brought
    /// back and the assumptions are mapped, since the literals that were fixed after the last one, and
    /// the shared clauses that were taken, may change what they come to.
    pub fn step<S: Alarm>(&mut self, limit: Option<u64>, stop: &mut S) -> StepAnswer
        requires under_way { IsUnderWay self.old }
        requires within { IfSome limit (λ most. self.old.conflicts ≤ most) }
        requires entries { EntriesFollow self.old }
        ensures right { StepsRight self.old self.new limit (S.raises stop.old) (S.raises stop.new) result }
        ensures refuted { IsRefuted self.old result }
        ensures problem { problem_in self.new ≡ problem_in self.old }
        ensures number { self.new.number ≡ self.old.number }
        ensures exchange { NoExchange self.old self.new }
        ensures in_step { (log : List Shared) → IsInStep self.old log → IsInStep self.new log }
        ensures interval { result ≢ StepAnswer.IntervalOver → self.new.interval ≡ self.old.interval }
        ensures assumptions { self.new.assumptions ≡ self.old.assumptions }
        ensures more { self.old.conflicts ≤ self.new.conflicts }
        ensures within { IfSome limit (λ most. self.new.conflicts ≤ most) }
        ensures stop { S.kept stop.old stop.new }
        ensures later { S.raises stop.old ≤ S.raises stop.new }
    {
        if !self.state.okay() {
            return StepAnswer::Verdict(Verdict::Unsat(List::new(self.alloc)));
        }
        match self.free_assumptions() {
            Ok(()) => self.search_mapped(limit, stop),
            Err(NoMemory) => StepAnswer::Memory,
        }
    }

    /// Brings the eliminated variables to which the assumptions come back. After want of memory some
    /// may be back.
    fn free_assumptions(&mut self) -> Result<(), NoMemory>
        requires { AssumesKnown self.old }
        ensures free { OnOk result (CanAssume self.new) }
        ensures okay { self.new.kernel.okay ≡ self.old.kernel.okay }
        ensures met { KeepsMet (state_of self.old.kernel) (state_of self.new.kernel) }
        ensures same { self.new ≡ record self.old { kernel = self.new.kernel } }
        ensures problem { problem_in self.new ≡ problem_in self.old }
    {
        free_lits(self.alloc, &mut self.state, self.assumptions.as_slice())
    }

    /// Maps the assumptions, none of which comes to an eliminated variable, and runs the interval
    /// under the literals that they come to.
    fn search_mapped<S: Alarm>(&mut self, limit: Option<u64>, stop: &mut S) -> StepAnswer
        requires okay { IsTrue self.old.kernel.okay }
        requires assumed { CanAssume self.old }
        requires under_way { IsUnderWay self.old }
        requires within { IfSome limit (λ most. self.old.conflicts ≤ most) }
        requires entries { EntriesFollow self.old }
        ensures right { StepsRight self.old self.new limit (S.raises stop.old) (S.raises stop.new) result }
        ensures problem { problem_in self.new ≡ problem_in self.old }
        ensures number { self.new.number ≡ self.old.number }
        ensures exchange { NoExchange self.old self.new }
        ensures met { KeepsMet (state_of self.old.kernel) (state_of self.new.kernel) }
        ensures interval { result ≢ StepAnswer.IntervalOver → self.new.interval ≡ self.old.interval }
        ensures assumptions { self.new.assumptions ≡ self.old.assumptions }
        ensures more { self.old.conflicts ≤ self.new.conflicts }
        ensures within { IfSome limit (λ most. self.new.conflicts ≤ most) }
        ensures stop { S.kept stop.old stop.new }
        ensures later { S.raises stop.old ≤ S.raises stop.new }
    {
        // That the state stands is known from here on.
        let _okay = self.state.okay();
        match map_assumptions(self.alloc, &self.state, self.assumptions.as_slice()) {
            Ok(Mapped::Ready { lits, positions }) => {
                self.search_under(lits.as_slice(), positions.as_slice(), limit, stop)
            }
            Ok(Mapped::Clash(positions)) => self.fails(positions.as_slice()),
            Err(NoMemory) => StepAnswer::Memory,
        }
    }

    /// Runs the interval under the literals that the assumptions were mapped to.
    fn search_under<S: Alarm>(
        &mut self,
        lits: &[InLit],
        positions: &[u32],
        limit: Option<u64>,
        stop: &mut S,
    ) -> StepAnswer
        requires okay { IsTrue self.old.kernel.okay }
        requires standing { Standing self.old.kernel }
        requires assumed { CanAssume self.old }
        requires ready { IsMappedTo self.old lits.now positions.now }
        requires under_way { IsUnderWay self.old }
        requires within { IfSome limit (λ most. self.old.conflicts ≤ most) }
        requires entries { EntriesFollow self.old }
        ensures right { StepsRight self.old self.new limit (S.raises stop.old) (S.raises stop.new) result }
        ensures problem { problem_in self.new ≡ problem_in self.old }
        ensures number { self.new.number ≡ self.old.number }
        ensures exchange { NoExchange self.old self.new }
        ensures met { KeepsMet (state_of self.old.kernel) (state_of self.new.kernel) }
        ensures interval { result ≢ StepAnswer.IntervalOver → self.new.interval ≡ self.old.interval }
        ensures assumptions { self.new.assumptions ≡ self.old.assumptions }
        ensures more { self.old.conflicts ≤ self.new.conflicts }
        ensures within { IfSome limit (λ most. self.new.conflicts ≤ most) }
        ensures stop { S.kept stop.old stop.new }
        ensures later { S.raises stop.old ≤ S.raises stop.new }
    {
        let left = left_of(limit, self.tally.count());
        let answer = self.search.run_interval(
            &mut self.state,
            lits,
            self.interval,
            left,
            stop,
            &mut self.tally,
        );
        match answer {
            IntervalAnswer::Model(values) => self.sat(lits, positions, values.as_slice()),
            IntervalAnswer::Failed(failed) => self.unsat_under(lits, positions, failed.as_slice()),
            IntervalAnswer::IntervalOver => self.end_interval(),
            IntervalAnswer::Spent => StepAnswer::Spent {
                count: self.tally.count(),
            },
            IntervalAnswer::Asked => StepAnswer::Asked,
            IntervalAnswer::Memory => StepAnswer::Memory,
        }
    }

    /// Takes every entry of the log from the cursor on, those that the solver added in its last call
    /// among them, and the waiting ones that no longer name an eliminated variable. Then it offers its
    /// fixed literals and its learned clauses of two literals. The answer is the number of entries
    /// added. The store's log is legal for the items taken, and the solver is in step with it. A call
    /// that is under way goes on. The only error is want of memory: then the log is legal still and
    /// begins with what it had.
    pub fn catch_up(&mut self, store: &mut Store) -> Result<u64, NoMemory>
        requires legal { IsLegalLog (problem_in self.old) store.old }
        requires in_step { IsInStep self.old store.old }
        ensures turn { IsTurn (problem_in self.old) self.old.number self.old.kernel.entries store.old self.new.kernel.entries store.new }
        ensures legal { IsLegalLog (problem_in self.new) store.new }
        ensures grows { GoesOn self.old.number store.old store.new }
        ensures in_step { IsInStep self.new store.new }
        ensures settled { OnOk result (IsSettled self.new store.new) }
        ensures added { IfOk result (λ added. length store.new ≡ length store.old + added) }
        ensures took { OnOk result (self.new.took ≡ others self.old.number (state_of self.old.kernel) (state_of self.new.kernel)) }
        ensures err { OnErr result (self.new.took ≡ self.old.took) }
        ensures problem { problem_in self.new ≡ problem_in self.old }
        ensures same { SameCall self.old self.new }
        ensures call { IsUnderWay self.old → IsUnderWay self.new }
    {
        let report = self.book.sync(&mut self.state, store, self.number)?;
        self.took = report.took;
        Ok(report.gave)
    }

    /// How many entries of other solvers were taken by the last `catch_up` that was answered `Ok`, 0
    /// before it.
    pub fn took(&self) -> u64
        ensures { result ≡ self.now.took }
    {
        self.took
    }

    /// The number of the solver.
    pub fn number(&self) -> u32
        ensures { result ≡ self.now.number }
    {
        self.number
    }

    /// The number of variables taken.
    pub fn vars(&self) -> u32
        ensures { result ≡ (problem_in self.now).vars }
    {
        self.state.maps().outer_count()
    }

    /// The number of items taken.
    pub fn taken(&self) -> usize
        ensures { result ≡ length (problem_in self.now).items }
    {
        self.state.taken()
    }

    /// The number of conflicts of the call, which stays at 18446744073709551615 once it is there.
    pub fn conflicts(&self) -> u64
        ensures { result ≡ self.now.conflicts }
    {
        self.tally.count()
    }

    /// Adds the conflicts to a tally, and leaves 0.
    pub fn pour(&mut self, into: &mut Tally)
        ensures sum { into.new ≡ saturated into.old self.old.conflicts }
        ensures emptied { self.new ≡ record self.old { conflicts = 0 } }
        ensures in_step { (log : List Shared) → IsInStep self.old log → IsInStep self.new log }
    {
        into.pour(&mut self.tally);
    }

    /// False only where the items taken have no model, if the shared clauses that were taken follow
    /// from them.
    pub fn okay(&self) -> bool
        ensures value { result ≡ self.now.kernel.okay }
        ensures right { result ≡ false → EntriesFollow self.now → HasNoModel (problem_in self.now) }
    {
        self.state.okay()
    }

    /// Answers a model, rebuilt from values of the inner numbers that satisfy the hard clauses and
    /// the literals that the assumptions were mapped to.
    fn sat(&self, lits: &[InLit], positions: &[u32], values: &[bool]) -> StepAnswer
        requires okay { IsTrue self.now.kernel.okay }
        requires assumed { CanAssume self.now }
        requires ready { IsMappedTo self.now lits.now positions.now }
        requires model { IsInnerModel self.now.kernel lits.now values.now }
        ensures { IsVerdictOrNone (problem_in self.now) self.now.assumptions result }
    {
        // That the maps match is known from here on.
        let _len = self.state.maps().own_len();
        match self.state.outer_model(values) {
            Ok(model) => StepAnswer::Verdict(Verdict::Sat(model)),
            Err(NoMemory) => StepAnswer::Memory,
        }
    }

    /// Answers that there is no model under the assumptions, by failed ones of the literals that
    /// they were mapped to. Where none is needed the state is refuted.
    fn unsat_under(&mut self, lits: &[InLit], positions: &[u32], failed: &[u32]) -> StepAnswer
        requires assumed { CanAssume self.old }
        requires entries { EntriesFollow self.old }
        requires ready { IsMappedTo self.old lits.now positions.now }
        requires failed { AreFailed self.old.kernel.store.held lits.now failed.now }
        ensures answer { IsVerdictOrNone (problem_in self.old) self.old.assumptions result }
        ensures same { self.new ≡ record self.old { kernel = self.new.kernel } }
        ensures problem { problem_in self.new ≡ problem_in self.old }
        ensures met { KeepsMet (state_of self.old.kernel) (state_of self.new.kernel) }
    {
        if failed.is_empty() {
            return self.unsat();
        }
        // That the state stands is known from here on.
        let _okay = self.state.okay();
        match positions_at(self.alloc, positions, failed) {
            Ok(failed) => self.fails(failed.as_slice()),
            Err(NoMemory) => StepAnswer::Memory,
        }
    }

    /// Answers that there is no model under the assumptions at these positions.
    fn fails(&self, positions: &[u32]) -> StepAnswer
        requires rising { IsStrictlyIncreasing positions.now }
        requires within { IsTrue (list_all (λ p. nat_lt p (length self.now.assumptions)) positions.now) }
        requires contradict { AreContradicted (problem_in self.now) self.now.assumptions positions.now }
        ensures { IsVerdictOrNone (problem_in self.now) self.now.assumptions result }
    {
        match failed_lits(self.alloc, self.assumptions.as_slice(), positions) {
            Ok(failed) => StepAnswer::Verdict(Verdict::Unsat(failed)),
            Err(NoMemory) => StepAnswer::Memory,
        }
    }

    /// Answers that there is no model, where the clauses have no solution.
    fn unsat(&mut self) -> StepAnswer
        requires contradicted { IsContradicted (state_of self.old.kernel) }
        requires entries { EntriesFollow self.old }
        ensures answer { result ≡ StepAnswer.Verdict (Unsat []) }
        ensures right { HasNoModel (problem_in self.old) }
        ensures same { self.new ≡ record self.old { kernel = self.new.kernel } }
        ensures problem { problem_in self.new ≡ problem_in self.old }
        ensures met { KeepsMet (state_of self.old.kernel) (state_of self.new.kernel) }
    {
        self.state.refute();
        StepAnswer::Verdict(Verdict::Unsat(List::new(self.alloc)))
    }

    /// Ends an interval: fixes what clauses of one literal say, and forgets old learned clauses.
    fn end_interval(&mut self) -> StepAnswer
        requires { self.old.interval < 2 ^ 20 }
        ensures answer { IsOverOrNone result }
        ensures over { result ≡ StepAnswer.IntervalOver → IsTidy self.old.interval self.new }
        ensures exchange { NoExchange self.old self.new }
        ensures met { KeepsMet (state_of self.old.kernel) (state_of self.new.kernel) }
        ensures interval { result ≢ StepAnswer.IntervalOver → self.new.interval ≡ self.old.interval }
        ensures conflicts { self.new.conflicts ≡ self.old.conflicts }
        ensures assumptions { self.new.assumptions ≡ self.old.assumptions }
        ensures problem { problem_in self.new ≡ problem_in self.old }
        ensures number { self.new.number ≡ self.old.number }
    {
        let keep = KEPT + KEPT_MORE * self.interval;
        match self.tidy(keep as usize) {
            Ok(()) => {
                self.interval += 1;
                StepAnswer::IntervalOver
            }
            Err(NoMemory) => StepAnswer::Memory,
        }
    }

    /// Fixes the literals of the clauses of one literal, and keeps so many long learned clauses.
    fn tidy(&mut self, keep: usize) -> Result<(), NoMemory>
        ensures units { OnOk result (IsTrue self.new.kernel.okay → HasNoUnits self.new.kernel) }
        ensures few { OnOk result (HasFewLong keep self.new.kernel) }
        ensures met { KeepsMet (state_of self.old.kernel) (state_of self.new.kernel) }
        ensures same { self.new ≡ record self.old { kernel = self.new.kernel } }
        ensures problem { problem_in self.new ≡ problem_in self.old }
    {
        tidy(self.alloc, &mut self.state, keep)
    }
}

/// How many conflicts a limit leaves where so many were made.
fn left_of(limit: Option<u64>, made: u64) -> Option<u64>
    requires { IfSome limit (λ most. made ≤ most) }
    ensures value { result ≡ option_map (λ most. most - made) limit }
    ensures range { IfSome limit (λ most. most < 2 ^ 64) }
{
    match limit {
        Some(most) => Some(most - made),
        None => None,
    }
}

/// The positions at which these places of a list of positions stand.
fn positions_at(alloc: Global, positions: &[u32], places: &[u32]) -> Result<List<u32>, NoMemory>
    requires { IsTrue (list_all (λ p. nat_lt p (length positions.now)) places.now) }
    ensures { IfOk result (λ found. found ≡ map (λ p. slice_index positions.now p) places.now) }
{
    let mut found = List::new(alloc);
    for place in places {
        found.push(positions[*place as usize])?;
    }
    Ok(found)
}
