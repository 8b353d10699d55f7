ghost use Rattle.std.specs.Prelude.{◌≡◌, ◌≤◌, ◌<◌, ℕ, true, false, All, length, slice_index_or};
ghost use Rattle.std.specs.Thread.{IsSync};
ghost use Rattle.sat_ports.specs.Causes.{Rose};
ghost use Rattle.race.specs.Running.{IsSeated, RunEnded, StaysFirst, IsAskedOf, KeepsOther};

use crate::runner::Runner;
use crate::task::Task;
use crate::watch::Lent;
use sat_ports::{Alarm, Gate, Silent};
use std::thread::{Threads, for_each_mut, join_mut};

/// Runs the first solver in this thread, and each other one in a thread of its own.
pub(crate) fn run_all<'a, 'b, R: Threads + Sync, A: Alarm + Send, G: Gate + Sync>(
    rt: &R,
    task: &Task<'a, G>,
    first: &mut Runner<'b, Lent<'b, A>>,
    others: &mut [Runner<'a, Silent>],
)
    requires first_asked { IsAskedOf first.old.watch.pass.view.question task.now.formula.now task.now.assumptions.now }
    requires first_seated { IsSeated task.now.limit first.old.solver first.old.watch.pass.view }
    requires first { first.old.watch.pass.view.first ≡ true }
    requires calm { first.old.watch.pass.view.alarmed ≡ false }
    requires asked { All (λ r. IsAskedOf r.watch.pass.view.question task.now.formula.now task.now.assumptions.now) others.old }
    requires seated { All (λ r. IsSeated task.now.limit r.solver r.watch.pass.view) others.old }

    ensures first_seated { IsSeated task.now.limit first.new.solver first.new.watch.pass.view }
    ensures first_ended { RunEnded task.now.limit first.new.solver first.new.watch.pass.view first.new.ending }
    ensures first_number { first.new.solver.number ≡ first.old.solver.number }
    ensures first_pass { StaysFirst first.old.watch.pass first.new.watch.pass }
    ensures alarmed { first.new.watch.pass.view.alarmed ≡ true → Rose (A.raises first.old.watch.alarm.alarm.now) (A.raises first.new.watch.alarm.alarm.now) }
    ensures later { A.raises first.old.watch.alarm.alarm.now ≤ A.raises first.new.watch.alarm.alarm.now }
    ensures lent { first.new.watch.alarm.alarm.ghost_name ≡ first.old.watch.alarm.alarm.ghost_name }
    ensures alarm { A.kept first.old.watch.alarm.alarm.now first.new.watch.alarm.alarm.now }

    ensures seated { All (λ r. IsSeated task.now.limit r.solver r.watch.pass.view) others.new }
    ensures ended { All (λ r. RunEnded task.now.limit r.solver r.watch.pass.view r.ending) others.new }
    ensures kept { (k : ℕ) (d : _) → k < length others.old → KeepsOther (slice_index_or others.old k d).solver (slice_index_or others.new k d).solver
        (slice_index_or others.old k d).watch.pass (slice_index_or others.new k d).watch.pass }
{
    join_mut(
        rt,
        &mut ||
            requires { IsSync R.row × All (λ r. IsAskedOf r.watch.pass.view.question task.now.formula.now task.now.assumptions.now) others.now × All
                (λ r. IsSeated task.now.limit r.solver r.watch.pass.view) others.now }
        { run_others(rt, task, others) },
        &mut || first.lead(task),
    );
}

/// Runs all solvers but the first, each in a thread.
fn run_others<R: Threads + Sync, G: Gate + Sync>(
    rt: &R,
    task: &Task<G>,
    runners: &mut [Runner<Silent>],
)
    requires asked { All (λ r. IsAskedOf r.watch.pass.view.question task.now.formula.now task.now.assumptions.now) runners.old }
    requires seated { All (λ r. IsSeated task.now.limit r.solver r.watch.pass.view) runners.old }
    ensures seated { All (λ r. IsSeated task.now.limit r.solver r.watch.pass.view) runners.new }
    ensures ended { All (λ r. RunEnded task.now.limit r.solver r.watch.pass.view r.ending) runners.new }
    ensures kept { (k : ℕ) (d : _) → k < length runners.old → KeepsOther (slice_index_or runners.old k d).solver (slice_index_or runners.new k d).solver
        (slice_index_or runners.old k d).watch.pass (slice_index_or runners.new k d).watch.pass }
{
    let threads = runners.len();
    if threads > 0 {
        for_each_mut(rt, runners, threads, &|_, runner| runner.follow(task));
    }
}
