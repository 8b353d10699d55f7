ghost use Rattle.std.specs.Prelude.{◌≡◌, ◌<◌, ◌≤◌, ◌^◌, List, true, false, length, OnOk, IsTrue};
ghost use Rattle.sat_lits.specs.Formulas.{Extends, names_known};
ghost use Rattle.sat_lits.specs.declared.formula.Item.TheVariants.{Clause};
ghost use Rattle.sat_lits.specs.declared.shared.Shared.{Shared};
ghost use Rattle.sat_lits.specs.Verdicts.{IsRight};
ghost use Rattle.sat_ports.specs.Causes.{Rose};
ghost use Rattle.one_solver.specs.Parts.{problem_in, SameCall};
ghost use Rattle.one_solver.specs.InStep.{IsInStep};
ghost use Rattle.one_solver.specs.Steps.{IsUnderWay};
ghost use Rattle.race.specs.Running.{IsSeated, IsSearching, RunEnded, RunsRight, Advances, KeepsRunner, IsAsked, IsAskedOf, IsFound, StaysFirst};
ghost use Rattle.race.specs.Watching.{KeepsPass, KeepsSeat, KnowsOutcome};

use crate::ending::Ending;
use crate::task::Task;
use crate::watch::Watch;
use one_solver::{OneSolver, StepAnswer};
use sat_lits::{Formula, Lit, NoMemory, Verdict};
use sat_ports::{Alarm, Gate, Silent};
use share_turn::{Exchange, Look, Pass, Turn};

/// How often a gate is asked before a solver goes on all the same.
const MOST_ASKS: u32 = 4_194_304;

/// What a part of a run came to.
pub(crate) enum Progress {
    /// An interval was made whole.
    Interval,
    /// The run ended.
    Ended(Ending),
    /// The alarm asks for a stop.
    Asked,
}

/// A solver with its pass.
pub(crate) struct Runner<'a, A: Alarm> {
    pub(crate) solver: OneSolver,
    pub(crate) watch: Watch<'a, A>,
    pub(crate) ending: Ending,
    // The entries of other solvers that it took, and those that it gave.
    pub(crate) taken: u64,
    pub(crate) given: u64,
}

impl<'a, A: Alarm> Runner<'a, A> {
    /// A solver that is to run with a pass of its own.
    pub(crate) fn new(
        solver: OneSolver,
        exchange: &'a Exchange,
        pass: Pass,
        alarm: A,
    ) -> Runner<'a, A>
        requires { pass.table ≡ exchange.now }
        ensures solver { result.solver ≡ solver }
        ensures pass { result.watch.pass ≡ pass }
        ensures alarm { result.watch.alarm ≡ alarm }
    {
        Runner {
            solver,
            watch: Watch::new(exchange, pass, alarm),
            ending: Ending::Memory,
            taken: 0,
            given: 0,
        }
    }

    /// Runs the first solver of a race. It polls its alarm first of all, and halts the race where the
    /// alarm asks for it then or later.
    #[tactic(auto, using(crate::specs::Running::starts_equal, share_store::specs::Laws::starts_trans))]
    pub(crate) fn lead<G: Gate>(&mut self, task: &Task<G>)
        requires seated { IsSeated task.now.limit self.old.solver self.old.watch.pass.view }
        requires asked { IsAskedOf self.old.watch.pass.view.question task.now.formula.now task.now.assumptions.now }
        requires first { self.old.watch.pass.view.first ≡ true }
        requires calm { self.old.watch.pass.view.alarmed ≡ false }
        ensures seated { IsSeated task.now.limit self.new.solver self.new.watch.pass.view }
        ensures ended { RunEnded task.now.limit self.new.solver self.new.watch.pass.view self.new.ending }
        ensures number { self.new.solver.number ≡ self.old.solver.number }
        ensures pass { StaysFirst self.old.watch.pass self.new.watch.pass }
        ensures alarmed { self.new.watch.pass.view.alarmed ≡ true → Rose (A.raises self.old.watch.alarm) (A.raises self.new.watch.alarm) }
        ensures later { A.raises self.old.watch.alarm ≤ A.raises self.new.watch.alarm }
        ensures alarm { A.kept self.old.watch.alarm self.new.watch.alarm }
    {
        let ran = if self.watch.is_alarmed() {
            None
        } else {
            self.run(task)
        };
        self.ending = match ran {
            Some(ending) => ending,
            None => self.halt(),
        };
    }

    /// Posts that the race was halted, unless another outcome was first.
    #[tactic(auto, using(crate::specs::Running::starts_equal, share_store::specs::Laws::starts_trans))]
    fn halt(&mut self) -> Ending
        requires { self.old.watch.pass.view.first ≡ true }
        ensures solver { self.new.solver ≡ self.old.solver }
        ensures alarm { self.new.watch.alarm ≡ self.old.watch.alarm }
        ensures pass { StaysFirst self.old.watch.pass self.new.watch.pass }
        ensures seen { self.new.watch.pass.view.seen ≡ self.old.watch.pass.view.seen }
        ensures turn { self.new.watch.pass.view.turn ≡ self.old.watch.pass.view.turn }
        ensures outcome { KnowsOutcome self.new.watch.pass.view }
        ensures ending { result ≡ Ending.Over }
    {
        self.watch.halt();
        Ending::Over
    }

    /// Runs the solver on the question until the run ends. The answer is how it did, or nothing where
    /// the alarm asks for a stop.
    #[tactic(auto, using(crate::specs::Running::starts_equal, share_store::specs::Laws::starts_trans))]
    fn run<G: Gate>(&mut self, task: &Task<G>) -> Option<Ending>
        requires seated { IsSeated task.now.limit self.old.solver self.old.watch.pass.view }
        requires asked { IsAskedOf self.old.watch.pass.view.question task.now.formula.now task.now.assumptions.now }
        ensures seated { IsSeated task.now.limit self.new.solver self.new.watch.pass.view }
        ensures right { RunsRight task.now.limit self.new.solver self.new.watch.pass.view (A.raises self.old.watch.alarm) (A.raises self.new.watch.alarm) result }
        ensures kept { KeepsRunner self.old.solver self.new.solver self.old.watch.pass self.new.watch.pass (A.raises self.old.watch.alarm) (A.raises self.new.watch.alarm)
            (A.kept self.old.watch.alarm self.new.watch.alarm) }
    {
        match begin(&mut self.solver, task.formula, task.assumptions) {
            Ok(()) => self.search(task),
            Err(NoMemory) => Some(Ending::Memory),
        }
    }

    /// Searches, with a turn before each interval, until the run ends.
    #[tactic(auto, using(crate::specs::Running::starts_equal, share_store::specs::Laws::starts_trans))]
    fn search<G: Gate>(&mut self, task: &Task<G>) -> Option<Ending>
        requires searching { IsSearching task.now.limit self.old.solver self.old.watch.pass.view }
        ensures seated { IsSeated task.now.limit self.new.solver self.new.watch.pass.view }
        ensures right { RunsRight task.now.limit self.new.solver self.new.watch.pass.view (A.raises self.old.watch.alarm) (A.raises self.new.watch.alarm) result }
        ensures kept { KeepsRunner self.old.solver self.new.solver self.old.watch.pass self.new.watch.pass (A.raises self.old.watch.alarm) (A.raises self.new.watch.alarm)
            (A.kept self.old.watch.alarm self.new.watch.alarm) }
    {
        wait_to_start(task.gate, self.solver.number());
        'intervals: loop {
            match self.advance(task) {
                Progress::Interval => {}
                Progress::Ended(ending) => return Some(ending),
                Progress::Asked => return None,
            }
        }
    }

    /// A look, a turn and an interval.
    #[tactic(auto, using(crate::specs::Running::starts_equal, share_store::specs::Laws::starts_trans))]
    fn advance<G: Gate>(&mut self, task: &Task<G>) -> Progress
        requires searching { IsSearching task.now.limit self.old.solver self.old.watch.pass.view }
        ensures seated { IsSeated task.now.limit self.new.solver self.new.watch.pass.view }
        ensures advances { Advances task.now.limit self.old.solver self.new.solver self.new.watch.pass.view (A.raises self.old.watch.alarm) (A.raises self.new.watch.alarm) result }
        ensures kept { KeepsRunner self.old.solver self.new.solver self.old.watch.pass self.new.watch.pass (A.raises self.old.watch.alarm) (A.raises self.new.watch.alarm)
            (A.kept self.old.watch.alarm self.new.watch.alarm) }
    {
        if self.watch.look() == Look::Stop {
            return Progress::Ended(Ending::Over);
        }
        if let Err(NoMemory) = self.turn(task) {
            return Progress::Ended(Ending::Memory);
        }
        wait_to_search(task.gate, self.solver.number());
        self.interval(task.limit)
    }

    /// One turn, if the turn is free: it takes what is in the store, and gives what it has. The only
    /// error is want of memory.
    #[tactic(auto, using(crate::specs::Running::starts_equal, share_store::specs::Laws::starts_trans))]
    fn turn<G: Gate>(&mut self, task: &Task<G>) -> Result<(), NoMemory>
        requires { IsSearching task.now.limit self.old.solver self.old.watch.pass.view }
        ensures searching { IsSearching task.now.limit self.new.solver self.new.watch.pass.view }
        ensures call { SameCall self.old.solver self.new.solver }
        ensures kept { KeepsRunner self.old.solver self.new.solver self.old.watch.pass self.new.watch.pass (A.raises self.old.watch.alarm) (A.raises self.new.watch.alarm)
            (A.kept self.old.watch.alarm self.new.watch.alarm) }
    {
        let Turn::Got(mut store) = self.watch.take() else {
            return Ok(());
        };
        let added = self.solver.catch_up(&mut store);
        self.watch.give(store);
        self.given = self.given.saturating_add(added?);
        self.taken = self.taken.saturating_add(self.solver.took());
        task.gate.told(self.solver.number(), self.taken, self.given);
        Ok(())
    }

    /// One interval of search.
    #[tactic(auto, using(crate::specs::Running::starts_equal, share_store::specs::Laws::starts_trans))]
    fn interval(&mut self, limit: Option<u64>) -> Progress
        requires searching { IsSearching limit self.old.solver self.old.watch.pass.view }
        ensures seated { IsSeated limit self.new.solver self.new.watch.pass.view }
        ensures advances { Advances limit self.old.solver self.new.solver self.new.watch.pass.view (A.raises self.old.watch.alarm) (A.raises self.new.watch.alarm) result }
        ensures kept { KeepsRunner self.old.solver self.new.solver self.old.watch.pass self.new.watch.pass (A.raises self.old.watch.alarm) (A.raises self.new.watch.alarm)
            (A.kept self.old.watch.alarm self.new.watch.alarm) }
    {
        match self.solver.step(limit, &mut self.watch) {
            StepAnswer::IntervalOver => Progress::Interval,
            StepAnswer::Verdict(verdict) => Progress::Ended(self.decide(verdict)),
            StepAnswer::Spent { count: _ } => Progress::Ended(Ending::Spent),
            StepAnswer::Asked => self.asked(),
            StepAnswer::Memory => Progress::Ended(Ending::Memory),
        }
    }

    /// Posts a verdict of the solver, and keeps it where another outcome was first.
    fn decide(&mut self, verdict: Verdict) -> Ending
        requires { IsRight self.old.watch.pass.view.question.formula.problem self.old.watch.pass.view.question.assumptions verdict }
        ensures solver { self.new.solver ≡ self.old.solver }
        ensures pass { KeepsPass self.old.watch.pass self.new.watch.pass }
        ensures alarm { self.new.watch.alarm ≡ self.old.watch.alarm }
        ensures ended { (limit : _) → RunEnded limit self.new.solver self.new.watch.pass.view result }
        ensures found { IsFound result }
    {
        match self.watch.decide(verdict) {
            None => Ending::Over,
            Some(verdict) => Ending::Late(verdict),
        }
    }

    /// Tells an outcome of another solver from the alarm, where the stop test asked for a stop.
    fn asked(&mut self) -> Progress
        ensures solver { self.new.solver ≡ self.old.solver }
        ensures pass { KeepsPass self.old.watch.pass self.new.watch.pass }
        ensures alarm { self.new.watch.alarm ≡ self.old.watch.alarm }
        ensures answer { IsAsked self.old.watch.stopped self.new.watch.pass.view result }
    {
        match self.watch.look() {
            Look::Stop => Progress::Ended(Ending::Over),
            Look::Go => Progress::Asked,
        }
    }
}

impl<'a> Runner<'a, Silent> {
    /// Runs a solver of a race other than the first, which has no alarm of its own.
    pub(crate) fn follow<G: Gate>(&mut self, task: &Task<G>)
        requires seated { IsSeated task.now.limit self.old.solver self.old.watch.pass.view }
        requires asked { IsAskedOf self.old.watch.pass.view.question task.now.formula.now task.now.assumptions.now }
        ensures seated { IsSeated task.now.limit self.new.solver self.new.watch.pass.view }
        ensures ended { RunEnded task.now.limit self.new.solver self.new.watch.pass.view self.new.ending }
        ensures number { self.new.solver.number ≡ self.old.solver.number }
        ensures pass { KeepsSeat self.old.watch.pass self.new.watch.pass }
    {
        self.ending = match self.run(task) {
            Some(ending) => ending,
            None => unreachable!(),
        };
    }
}

/// Takes the whole formula, and begins a call. The only error is want of memory.
fn begin(solver: &mut OneSolver, formula: &Formula, assumptions: &[Lit]) -> Result<(), NoMemory>
    requires front { Extends (problem_in solver.old) formula.now.problem }
    requires known { IsTrue (names_known formula.now.problem.vars (Clause assumptions.now)) }
    requires few { length assumptions.now < 2 ^ 32 }
    ensures whole { OnOk result (problem_in solver.new ≡ formula.now.problem) }
    ensures assumptions { OnOk result (solver.new.assumptions ≡ assumptions.now) }
    ensures under_way { OnOk result (IsUnderWay solver.new) }
    ensures conflicts { solver.new.conflicts ≤ solver.old.conflicts }
    ensures front { Extends (problem_in solver.new) formula.now.problem }
    ensures number { solver.new.number ≡ solver.old.number }
    ensures in_step { (log : List Shared) → IsInStep solver.old log → IsInStep solver.new log }
{
    solver.absorb(formula)?;
    solver.begin_call(assumptions)
}

/// Asks a gate whether a solver may begin, until it says yes or was asked often enough.
fn wait_to_start<G: Gate>(gate: &G, solver: u32) {
    for _ in 0..MOST_ASKS {
        if gate.may_start(solver) {
            return;
        }
    }
}

/// Asks a gate whether a solver may search on, until it says yes or was asked often enough.
fn wait_to_search<G: Gate>(gate: &G, solver: u32) {
    for _ in 0..MOST_ASKS {
        if gate.may_search(solver) {
            return;
        }
    }
}
