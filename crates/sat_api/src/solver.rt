ghost use Rattle.std.specs.Prelude.{◌≡◌, ◌+◌, ◌<◌, ◌≤◌, ◌^◌, ◌↔◌, ◌⊎◌, ℕ, [], All, false, true, Some, None, Err, length, IfOk, IfErr, IfSome, OnOk, OnErr, IsTrue};
ghost use Rattle.std.specs.Option.{option_copied};
ghost use Rattle.sat_lits.specs.declared.formula.Item.TheVariants.{Clause, Parity};
ghost use Rattle.sat_lits.specs.Limits.{standard_limits};
ghost use Rattle.sat_lits.specs.Logs.{IsLegalLog};
ghost use Rattle.sat_lits.specs.Meaning.{IsModel, Follows};
ghost use Rattle.sat_lits.specs.Formulas.{with_vars, with_item, first_unknown, numbers_of, names_known, lit_count};
ghost use Rattle.sat_api.specs.State.{new_solver, unanswered, with_problem, IsCount, HasBegun, Keeps};
ghost use Rattle.sat_api.specs.Answers.{Answers, Decides, Completes, KeepsOkay, AnswersAtOnce, Settles, is_refutation};

use crate::compete::compete;
use crate::error::ApiError;
use crate::solvers::{count_lost, new_solvers};
use analyze::Tally;
use one_solver::OneSolver;
use race::RaceAnswer;
use sat_lits::{Formula, Limits, List, Lit, NoMemory, Shared, Var, Verdict};
use sat_ports::Alarm;
use share_store::Store;
use std::alloc::Global;
use std::marker::Model;
use std::thread::Threads;

/// Why `solve` found neither.
#[derive(Debug, Drop)]
pub enum Cause {
    /// Each solver made as many conflicts as the limit allows. There is one count for each solver,
    /// and each is the limit.
    Limit { counts: List<u64> },
    /// The alarm asked for a stop.
    Alarm,
}

/// What `solve` found.
#[derive(Debug, Drop)]
pub enum Answer {
    /// An assignment satisfies every item and every assumption.
    Sat,
    /// No assignment does.
    Unsat,
    /// It is not known whether one does.
    Unknown(Cause),
}

/// A solver: variables, clauses and parities over them, within limits, the clauses that its threads
/// share, and what the latest call answered.
///
/// A call that is refused changes nothing, except that a `solve` which runs out of memory drops
/// the earlier answer.
#[derive(Debug, Drop)]
pub struct SatSolver {
    alloc: Global,
    limits: Limits,
    formula: Formula,
    threads: u32,
    max_conflicts: Option<u64>,
    // Whether a question was asked.
    begun: bool,
    // One for each thread, from the first question on.
    solvers: Vec<OneSolver>,
    store: Store,
    given_up: u32,
    tally: Tally,
    model: Option<List<bool>>,
    conflict: Option<List<Lit>>,
    okay: bool,
}

impl Model for SatSolver {
    ghost use Rattle.sat_api.specs.State.{SolverState};

    ghost Value = { SolverState };

    ghost use Rattle.sat_api.specs.Kept.{state_of, IsKept};

    ghost view = { state_of };

    ghost invariant = { IsKept };
}

impl SatSolver {
    /// No variables and no items, with the standard limits, one thread and no conflict limit. It
    /// takes no memory.
    pub fn new(alloc: Global) -> SatSolver
        ensures { result ≡ new_solver standard_limits }
    {
        SatSolver::with_limits(alloc, Limits::standard())
    }

    /// No variables and no items, with these limits, one thread and no conflict limit. It takes no
    /// memory.
    pub fn with_limits(alloc: Global, limits: Limits) -> SatSolver
        ensures { result ≡ new_solver limits }
    {
        SatSolver {
            alloc,
            limits,
            formula: Formula::new(alloc, limits),
            threads: 1,
            max_conflicts: None,
            begun: false,
            solvers: Vec::new(alloc),
            store: Store::new(alloc),
            given_up: 0,
            tally: Tally::new(),
            model: None,
            conflict: None,
            okay: true,
        }
    }

    /// Sets the number of threads that search in each `solve`, each with a solver of its own.
    ///
    /// `BadCount` comes exactly where the number is 0 or greater than the limit, and `TooLate` exactly
    /// where else there is a variable or an item, or a `solve` was not refused for a variable.
    pub fn set_num_threads(&mut self, threads: u32) -> Result<(), ApiError>
        ensures ok { OnOk result (self.new ≡ record self.old { threads = threads }) }

        ensures bad_count { (result ≡ Err ApiError.BadCount) ↔ ((threads ≡ 0) ⊎ (self.old.limits.threads < threads)) }
        ensures too_late { (result ≡ Err ApiError.TooLate) ↔ (IsCount self.old.limits threads × HasBegun self.old) }
        ensures only { IfErr result (λ e. (e ≡ ApiError.BadCount) ⊎ (e ≡ ApiError.TooLate)) }
        ensures err { OnErr result (self.new ≡ self.old) }
    {
        if threads == 0 || threads > self.limits.threads() {
            return Err(ApiError::BadCount);
        }
        if self.begun || self.formula.vars() > 0 || !self.formula.items().is_empty() {
            return Err(ApiError::TooLate);
        }
        self.threads = threads;
        Ok(())
    }

    /// Adds `by` variables. `TooManyVars` comes exactly where there would be more than the limit.
    pub fn new_vars(&mut self, by: u32) -> Result<(), ApiError>
        ensures ok { OnOk result (self.new ≡ with_problem (with_vars by self.old.problem) self.old) }

        ensures too_many_vars { (result ≡ Err ApiError.TooManyVars) ↔ (self.old.limits.vars < self.old.problem.vars + by) }
        ensures only { IfErr result (λ e. e ≡ ApiError.TooManyVars) }
        ensures err { OnErr result (self.new ≡ self.old) }
    {
        // That the items name variables that are there is known from here on.
        let _vars = self.formula.vars();
        self.formula.grow(by)?;
        self.model = None;
        self.conflict = None;
        Ok(())
    }

    /// Appends a clause as given, with repeats, also the empty one.
    ///
    /// `NoSuchVar` comes exactly where a variable is not there, and names the first such;
    /// `TooManyLits` exactly where else the literals of all items would be more than the limit;
    /// `Memory` last.
    pub fn add_clause(&mut self, lits: &[Lit]) -> Result<(), ApiError>
        ensures ok { OnOk result (self.new ≡ with_problem (with_item (Clause lits.now) self.old.problem) self.old) }

        ensures no_such_var { (n : ℕ) → (result ≡ Err (ApiError.NoSuchVar n))
            ↔ (first_unknown self.old.problem.vars (numbers_of (Clause lits.now)) ≡ Some n) }
        ensures too_many_lits { (result ≡ Err ApiError.TooManyLits)
            ↔ ((first_unknown self.old.problem.vars (numbers_of (Clause lits.now)) ≡ None)
            × (self.old.limits.lits < lit_count self.old.problem.items + length lits.now)) }
        ensures only { IfErr result (λ e. (e ≡ ApiError.Memory) ⊎ (e ≡ ApiError.TooManyLits) ⊎ (n : ℕ) × (e ≡ ApiError.NoSuchVar n)) }
        ensures err { OnErr result (self.new ≡ self.old) }
    {
        // That the items name variables that are there is known from here on.
        let _vars = self.formula.vars();
        self.formula.push_clause(lits)?;
        self.model = None;
        self.conflict = None;
        Ok(())
    }

    /// Appends a parity as given, with repeats: the number of true variables, each counted as often
    /// as it stands, is odd exactly if `rhs`.
    ///
    /// The refusals are those of a clause, where each variable counts as one literal.
    pub fn add_xor_clause(&mut self, vars: &[Var], rhs: bool) -> Result<(), ApiError>
        ensures ok { OnOk result (self.new ≡ with_problem (with_item (Parity vars.now rhs) self.old.problem) self.old) }

        ensures no_such_var { (n : ℕ) → (result ≡ Err (ApiError.NoSuchVar n))
            ↔ (first_unknown self.old.problem.vars (numbers_of (Parity vars.now rhs)) ≡ Some n) }
        ensures too_many_lits { (result ≡ Err ApiError.TooManyLits)
            ↔ ((first_unknown self.old.problem.vars (numbers_of (Parity vars.now rhs)) ≡ None)
            × (self.old.limits.lits < lit_count self.old.problem.items + length vars.now)) }
        ensures only { IfErr result (λ e. (e ≡ ApiError.Memory) ⊎ (e ≡ ApiError.TooManyLits) ⊎ (n : ℕ) × (e ≡ ApiError.NoSuchVar n)) }
        ensures err { OnErr result (self.new ≡ self.old) }
    {
        // That the items name variables that are there is known from here on.
        let _vars = self.formula.vars();
        self.formula.push_parity(vars, rhs)?;
        self.model = None;
        self.conflict = None;
        Ok(())
    }

    /// Sets the number of conflicts that a solver may make in each later `solve`. None is no limit.
    pub fn set_max_confl(&mut self, limit: Option<u64>)
        ensures { self.new ≡ record self.old { max_conflicts = limit } }
    {
        self.max_conflicts = limit;
    }

    /// Looks for an assignment that satisfies every item and every assumption, of which there are at
    /// most 2^31. The first of the solvers searches in this thread, and each other one in a thread of
    /// its own.
    ///
    /// `NoSuchVar` comes before anything else, exactly where an assumption's variable is not there,
    /// and names the first such; nothing changes then. Where `okay` is false the answer is `Unsat`
    /// at once, with the empty conflict. After `Sat` the model is there to be read, and after
    /// `Unsat` the conflict. `Unknown` names its cause. `Limit` comes only where a conflict limit is
    /// set, with as many counts as threads, each of which is the limit; `conflicts` rose in this call
    /// by at least their sum, and the limit is less than the number of conflicts that is enough to
    /// decide the formula. `Alarm` comes only where the count of the alarm rose in this call. So
    /// without a limit, or with one that is enough, and without a raise there is a verdict or want of
    /// memory. After `Unknown` the items stand, and the question may be asked again.
    ///
    /// `Memory` is the only other error: then the items stand, the shared clauses stand with what was
    /// added, and neither model nor conflict is there. A solver that ran out of memory is made anew in
    /// the next call. Where a conflict limit is set, no solver makes more conflicts in one call, whatever
    /// the answer. The alarm is polled first of all, but for a question that is refused or answered at
    /// once, where it is not polled.
    pub fn solve<R: Threads + Sync, A: Alarm + Send>(
        &mut self,
        rt: &R,
        assumptions: &[Lit],
        alarm: &mut A,
    ) -> Result<Answer, ApiError>
        requires { length assumptions.now ≤ 2 ^ 31 }
        ensures answers { IfOk result (Answers self.old self.new assumptions.now (A.raises alarm.old) (A.raises alarm.new)) }
        ensures decided { IfOk result (Decides self.old.problem assumptions.now) }
        ensures completes { IfOk result (Completes self.old (A.raises alarm.old) (A.raises alarm.new)) }
        ensures okay { IfOk result (λ answer. KeepsOkay self.old self.new) }
        ensures begun { IfOk result (λ answer. self.new.begun ≡ true) }
        ensures at_once { IfOk result (λ answer. self.old.okay ≡ false → AnswersAtOnce self.old self.new answer) }

        ensures settled { IfOk result (λ answer. self.old.okay ≡ true → Settles self.old self.new × (length self.new.solvers ≡ self.old.threads)) }
        ensures left { result ≡ Err ApiError.Memory → self.old.okay ≡ true → Settles self.old self.new }

        ensures keeps { Keeps self.old self.new }
        ensures later { A.raises alarm.old ≤ A.raises alarm.new }
        ensures unpolled { self.old.okay ≡ false → alarm.new ≡ alarm.old }

        ensures no_such_var { (n : ℕ) → (result ≡ Err (ApiError.NoSuchVar n))
            ↔ (first_unknown self.old.problem.vars (numbers_of (Clause assumptions.now)) ≡ Some n) }
        ensures refused { (n : ℕ) → result ≡ Err (ApiError.NoSuchVar n) → (self.new ≡ self.old) × (alarm.new ≡ alarm.old) }
        ensures memory { result ≡ Err ApiError.Memory
            → self.new ≡ unanswered (record self.old { begun = true; counted = self.new.counted; solvers = self.new.solvers; shared = self.new.shared; given_up = self.new.given_up }) }
        ensures only { IfErr result (λ e. (e ≡ ApiError.Memory) ⊎ (n : ℕ) × (e ≡ ApiError.NoSuchVar n)) }
    {
        if let Some(var) = unknown_lit(self.formula.vars(), assumptions) {
            return Err(ApiError::NoSuchVar { var });
        }
        let answer = self.ask(rt, assumptions, alarm)?;
        Ok(answer)
    }

    /// The same where the variables of the assumptions are there.
    fn ask<R: Threads + Sync, A: Alarm + Send>(
        &mut self,
        rt: &R,
        assumptions: &[Lit],
        alarm: &mut A,
    ) -> Result<Answer, NoMemory>
        requires few { length assumptions.now ≤ 2 ^ 31 }
        requires known { IsTrue (names_known self.old.problem.vars (Clause assumptions.now)) }
        ensures answers { IfOk result (Answers self.old self.new assumptions.now (A.raises alarm.old) (A.raises alarm.new)) }
        ensures decided { IfOk result (Decides self.old.problem assumptions.now) }
        ensures okay { IfOk result (λ answer. KeepsOkay self.old self.new) }
        ensures begun { self.new.begun ≡ true }
        ensures at_once { IfOk result (λ answer. self.old.okay ≡ false → AnswersAtOnce self.old self.new answer) }
        ensures settled { self.old.okay ≡ true → Settles self.old self.new }
        ensures many { IfOk result (λ answer. self.old.okay ≡ true → length self.new.solvers ≡ self.old.threads) }
        ensures keeps { Keeps self.old self.new }
        ensures later { A.raises alarm.old ≤ A.raises alarm.new }
        ensures unpolled { self.old.okay ≡ false → alarm.new ≡ alarm.old }
        ensures err { OnErr result (self.new ≡ unanswered (record self.old { begun = true; counted = self.new.counted; solvers = self.new.solvers; shared = self.new.shared; given_up = self.new.given_up })) }
    {
        self.begin();
        if !self.okay {
            self.conflict = Some(List::new(self.alloc));
            return Ok(Answer::Unsat);
        }
        self.fill()?;
        let found = compete(
            rt,
            self.alloc,
            &self.formula,
            assumptions,
            self.max_conflicts,
            self.solvers.as_mut_slice(),
            &mut self.store,
            &mut self.tally,
            alarm,
        );
        self.given_up = count_lost(self.solvers.as_slice(), &self.formula);
        match found {
            RaceAnswer::Verdict(Verdict::Sat(values)) => {
                self.model = Some(values);
                Ok(Answer::Sat)
            }
            RaceAnswer::Verdict(Verdict::Unsat(mut failed)) => {
                failed.negate();
                self.okay = !is_empty_clause(failed.as_slice());
                self.conflict = Some(failed);
                Ok(Answer::Unsat)
            }
            RaceAnswer::Spent { counts } => Ok(Answer::Unknown(Cause::Limit { counts })),
            RaceAnswer::Interrupted => Ok(Answer::Unknown(Cause::Alarm)),
            RaceAnswer::Memory => Err(NoMemory),
        }
    }

    /// A question is asked: what the latest call left to be read is gone.
    fn begin(&mut self)
        ensures { self.new ≡ unanswered (record self.old { begun = true; given_up = 0 }) }
    {
        self.begun = true;
        self.given_up = 0;
        self.model = None;
        self.conflict = None;
    }

    /// Makes the solvers, where there are none yet. The only error is want of memory.
    fn fill(&mut self) -> Result<(), NoMemory>
        requires { self.old.begun ≡ true }
        ensures many { OnOk result (length self.new.solvers ≡ self.old.threads) }
        ensures same { self.new ≡ record self.old { solvers = self.new.solvers } }
        ensures err { OnErr result ((self.old.solvers ≡ []) × (self.new ≡ self.old)) }
    {
        if self.solvers.is_empty() {
            self.solvers = new_solvers(self.alloc, self.threads)?;
        }
        Ok(())
    }

    /// False exactly where an earlier `solve` answered `Unsat` with the empty conflict: the items
    /// alone contradict each other.
    pub fn okay(&self) -> bool
        ensures value { result ≡ self.now.okay }
        ensures right { result ≡ false → Follows self.now.problem [] }
    {
        self.okay
    }

    /// The number of conflicts that were made in all calls of `solve`. It never falls, and stays at
    /// 18446744073709551615 once it is there.
    pub fn conflicts(&self) -> u64
        ensures { result ≡ self.now.counted }
    {
        self.tally.count()
    }

    /// The number of variables.
    pub fn n_vars(&self) -> u32
        ensures { result ≡ self.now.problem.vars }
    {
        self.formula.vars()
    }

    /// The clauses that the solvers share, in the order in which they were given. Each has one or two
    /// literals and follows from the items, no two are the same, and each names the solver that gave
    /// it, which is below the number of threads.
    pub fn shared(&self) -> &[Shared]
        ensures value { result.now ≡ self.now.shared }
        ensures legal { IsLegalLog self.now.problem self.now.shared }
        ensures given { All (λ e. e.solver < self.now.threads) self.now.shared }
    {
        self.store.from(0)
    }

    /// The number of solvers that ran out of memory in the latest `solve`.
    pub fn given_up(&self) -> u32
        ensures { result ≡ self.now.given_up }
    {
        self.given_up
    }

    /// The values of the variables in order, where the latest call that was not refused was a
    /// `solve` that answered `Sat`.
    pub fn get_model(&self) -> Option<&[bool]>
        ensures value { option_copied result ≡ self.now.model }
        ensures satisfies { IfSome result (λ values. IsModel self.now.problem values.now) }
    {
        self.model.as_ref().map(|values| values.as_slice())
    }

    /// The clause of the negated failed assumptions, where the latest call that was not refused
    /// was a `solve` that answered `Unsat`. It is empty where the items alone contradict each
    /// other.
    pub fn get_conflict(&self) -> Option<&[Lit]>
        ensures value { option_copied result ≡ self.now.conflict }
        ensures follows { IfSome result (λ lits. Follows self.now.problem lits.now) }
    {
        self.conflict.as_ref().map(|lits| lits.as_slice())
    }
}

/// The number of the first variable that is not among the first `known`.
fn unknown_lit(known: u32, lits: &[Lit]) -> Option<u32>
    ensures { result ≡ first_unknown known (numbers_of (Clause lits.now)) }
{
    lits.iter().map(|lit| lit.var.0).find(|var| known <= *var)
}

fn is_empty_clause(lits: &[Lit]) -> bool
    ensures { result ≡ is_refutation (Some lits.now) }
{
    match lits {
        [] => true,
        _ => false,
    }
}
