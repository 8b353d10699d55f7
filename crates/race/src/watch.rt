ghost use Rattle.std.specs.Prelude.{◌≡◌, ◌≤◌, ◌⊎◌, true, false, List, Some, None, IfSome};
ghost use Rattle.sat_lits.specs.Verdicts.{IsRight};
ghost use Rattle.sat_lits.specs.declared.shared.Shared.{Shared};
ghost use Rattle.sat_ports.specs.Causes.{Rose};
ghost use Rattle.share_store.specs.Log.{StartsWith};
ghost use Rattle.share_turn.specs.declared.view.Phase.TheVariants.{Free, Out};
ghost use Rattle.share_turn.specs.Views.{IsLegalFor, known_of, freed};
ghost use Rattle.share_turn.specs.Answers.{Takes};
ghost use Rattle.race.specs.Watching.{KeepsPass, KnowsOutcome};

use sat_lits::Verdict;
use sat_ports::Alarm;
use share_store::Store;
use share_turn::{Exchange, Look, Outcome, Pass, PostAnswer, Turn};

/// An alarm that is lent to a race.
pub(crate) struct Lent<'a, A: Alarm> {
    pub(crate) alarm: &'a mut A,
}

impl<'a, A: Alarm> Alarm for Lent<'a, A> {
    ghost use Rattle.std.specs.Prelude.{◌≡◌, refl};
    ghost use Rattle.std.proofs.Common.{◌∙◌};

    ghost raises = { λ lent. A.raises lent.alarm.now };

    ghost kept = { λ x y. (y.alarm.ghost_name ≡ x.alarm.ghost_name) × A.kept x.alarm.now y.alarm.now };

    ghost kept_by_none = { λ x. (refl, A.kept_by_none x.alarm.now) };

    ghost kept_by_both = { λ x y z e f. (f.0 ∙ e.0, A.kept_by_both x.alarm.now y.alarm.now z.alarm.now e.1 f.1) };

    fn poll(&mut self) -> bool {
        self.alarm.poll()
    }
}

/// The stop test of a solver: its pass to the exchange, and an alarm.
pub(crate) struct Watch<'a, A: Alarm> {
    pub(crate) exchange: &'a Exchange,
    pub(crate) pass: Pass,
    pub(crate) alarm: A,
    /// A look found that an outcome was posted.
    pub(crate) stopped: bool,
    pub ghost own: { pass.table ≡ exchange.now },
    pub ghost knows: { stopped ≡ true → pass.view.posted ≡ true },
}

impl<'a, A: Alarm> Watch<'a, A> {
    pub(crate) fn new(exchange: &'a Exchange, pass: Pass, alarm: A) -> Watch<'a, A>
        requires { pass.table ≡ exchange.now }
        ensures pass { result.pass ≡ pass }
        ensures alarm { result.alarm ≡ alarm }
    {
        Watch {
            exchange,
            pass,
            alarm,
            stopped: false,
        }
    }

    /// Looks whether an outcome was posted.
    pub(crate) fn look(&mut self) -> Look
        ensures kept { KeepsPass self.old.pass self.new.pass }
        ensures alarm { self.new.alarm ≡ self.old.alarm }
        ensures stopped { self.new.stopped ≡ self.old.stopped }
        ensures stop { result ≡ Look.Stop → self.new.pass.view.posted ≡ true }
        ensures go { result ≡ Look.Go → self.old.pass.view.posted ≡ false }
    {
        self.exchange.look(&mut self.pass)
    }

    /// Whether the alarm asks for a stop.
    pub(crate) fn is_alarmed(&mut self) -> bool
        ensures pass { self.new.pass ≡ self.old.pass }
        ensures later { A.raises self.old.alarm ≤ A.raises self.new.alarm }
        ensures rose { result ≡ true → Rose (A.raises self.old.alarm) (A.raises self.new.alarm) }
        ensures kept { A.kept self.old.alarm self.new.alarm }
    {
        self.alarm.poll()
    }

    /// Tries once to take the turn, and the store with it.
    pub(crate) fn take(&mut self) -> Turn
        requires { self.old.pass.view.turn ≡ Free }
        ensures table { self.new.pass.table ≡ self.old.pass.table }
        ensures turn { Takes self.old.pass.view self.new.pass.view result }
        ensures alarm { self.new.alarm ≡ self.old.alarm }
    {
        self.exchange.take(&mut self.pass)
    }

    /// Gives the store back, and the turn with it.
    pub(crate) fn give(&mut self, store: Store)
        requires legal { IsLegalFor self.old.pass.view.question store }
        requires turn { (log : List Shared) × (self.old.pass.view.turn ≡ Out log) × StartsWith store log }
        ensures pass { self.new.pass ≡ known_of self.old.pass.table (freed store self.old.pass.view) }
        ensures alarm { self.new.alarm ≡ self.old.alarm }
    {
        self.exchange.give(&mut self.pass, store);
    }

    /// Posts a verdict, unless another pass was first: then the verdict comes back.
    pub(crate) fn decide(&mut self, verdict: Verdict) -> Option<Verdict>
        requires { IsRight self.old.pass.view.question.formula.problem self.old.pass.view.question.assumptions verdict }
        ensures kept { KeepsPass self.old.pass self.new.pass }
        ensures alarm { self.new.alarm ≡ self.old.alarm }
        ensures posted { result ≡ None → self.new.pass.view.posted ≡ true }
        ensures outcome { result ≡ None → self.new.pass.view.outcome ≡ Some (Outcome.Verdict verdict) }
        ensures back { IfSome result (λ back. back ≡ verdict) }
    {
        match self
            .exchange
            .post(&mut self.pass, Outcome::Verdict(verdict))
        {
            PostAnswer::Posted => None,
            PostAnswer::Late(Outcome::Verdict(verdict)) => Some(verdict),
            PostAnswer::Late(Outcome::Halted) => unreachable!(),
        }
    }

    /// Posts that the race was halted, unless another pass was first.
    pub(crate) fn halt(&mut self)
        requires { self.old.pass.view.first ≡ true }
        ensures table { self.new.pass.table ≡ self.old.pass.table }
        ensures question { self.new.pass.view.question ≡ self.old.pass.view.question }
        ensures seen { self.new.pass.view.seen ≡ self.old.pass.view.seen }
        ensures turn { self.new.pass.view.turn ≡ self.old.pass.view.turn }
        ensures first { self.new.pass.view.first ≡ true }
        ensures splits { self.new.pass.view.splits ≡ self.old.pass.view.splits }
        ensures joins { self.new.pass.view.joins ≡ self.old.pass.view.joins }
        ensures outcome { KnowsOutcome self.new.pass.view }
        ensures alarm { self.new.alarm ≡ self.old.alarm }
    {
        self.exchange.post(&mut self.pass, Outcome::Halted);
    }
}

impl<'a, A: Alarm> Alarm for Watch<'a, A> {
    ghost use Rattle.std.specs.Prelude.{◌≡◌, ◌≤◌, ℕ};
    ghost use Rattle.race.specs.Watching.{KeepsWatch, count_of, kept_watch, kept_watch_on};

    ghost raises = { λ watch. count_of watch.stopped (A.raises watch.alarm) };

    ghost kept = { λ x y. KeepsWatch x.pass y.pass (A.raises x.alarm) (A.raises y.alarm) (A.kept x.alarm y.alarm) };

    ghost kept_by_none = { λ x. kept_watch x.pass (A.raises x.alarm) (A.kept_by_none x.alarm) };

    ghost kept_by_both = { λ x y z e f. kept_watch_on x.pass y.pass z.pass (A.raises x.alarm) (A.raises y.alarm) (A.raises z.alarm) e f (A.kept_by_both x.alarm y.alarm z.alarm e.alarm f.alarm) };

    fn poll(&mut self) -> bool {
        match self.exchange.look(&mut self.pass) {
            Look::Stop => {
                self.stopped = true;
                true
            }
            Look::Go => self.alarm.poll(),
        }
    }
}
