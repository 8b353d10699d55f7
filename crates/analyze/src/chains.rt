ghost use Rattle.std.specs.Prelude.{◌≡◌, ◌≤◌, ◌∷◌, not, filter, IfOk, OnOk, IfSome, IfNone, IsTrue};
ghost use Rattle.trail.specs.Trail.{IsKept};
ghost use Rattle.propagate.specs.Reasons.{reasoned};
ghost use Rattle.analyze.specs.LearnedClauses.{IsLearned};
ghost use Rattle.analyze.specs.Marking.{is_marked, IsFresh, IsGreatest};
ghost use Rattle.analyze.specs.Met.{lits_met};
ghost use Rattle.analyze.specs.Walks.{AtEnd};

use crate::analyzer::Learned;
use crate::marks::Marks;
use crate::walk::Walk;
use clause_store::ClauseStore;
use sat_lits::{ClauseId, InLit, Inner, List, NoMemory};
use std::alloc::Global;
use trail::Trail;

/// A variable whose reason is being looked at.
#[derive(Clone, Copy, Debug)]
pub struct Link {
    pub var: Inner,
    pub reason: ClauseId,
    // How many literals of the reason, from its front, were found to be settled.
    pub passed: usize,
}

/// A literal of a reason that is not settled.
#[derive(Clone, Copy, Debug)]
struct Open {
    var: Inner,
    // Its place in the reason.
    place: usize,
}

/// A walk along chains of reasons, to find the variables of a clause that its others imply
/// (Sörensson and Biere, 2009). A variable is settled that is marked, implied or of level 0, and it
/// is implied where the others of its reason are settled. No reason is looked at twice.
#[derive(Debug, Drop)]
pub struct Chains {
    pub implied: Marks,
    // The variables whose reasons were looked at. What is not implied when its chain ends is not.
    pub looked: Marks,
    // The chain under way: each variable stands in the reason of the one before it.
    pub links: Vec<Link>,
}

impl Chains {
    ghost use Rattle.analyze.specs.Chains.{AtChains, InChain, Fits, IsPassedWhole, HasBegun, either, own_or_settled, left_over};

    /// It takes no memory.
    pub fn new(alloc: Global) -> Chains {
        Chains {
            implied: Marks::new(alloc),
            looked: Marks::new(alloc),
            links: Vec::new(alloc),
        }
    }

    /// The clause at the end of a walk, without the literals that its others imply.
    pub fn shorten(
        &mut self,
        walk: &Walk,
        store: &ClauseStore,
        trail: &Trail,
        first: InLit,
    ) -> Result<Learned, NoMemory>
        requires reasoned { IsTrue (reasoned store.now.held trail.now.steps) }
        requires end { AtEnd store.now.held trail.now walk.now first }
        ensures learned { IfOk result (λ learned. IsLearned store.now.held trail.now.steps learned.lits learned.back) }
        ensures met { IfOk result (λ learned. IsTrue (lits_met walk.now.marks.vars learned.lits)) }
    {
        let others = walk.others.as_slice();
        self.start(trail)?;
        self.follow_all(&walk.marks, store, trail, others)?;
        let lits = self.kept(walk.marks.allocator(), first, others)?;
        let back = greatest_level(trail, &lits.as_slice()[1..]);
        Ok(Learned { lits, back })
    }

    /// No variable is implied yet, and no reason was looked at.
    fn start(&mut self, trail: &Trail) -> Result<(), NoMemory>
        ensures implied { OnOk result (IsFresh trail.now.reserved self.new.implied) }
        ensures looked { OnOk result (IsFresh trail.now.reserved self.new.looked) }
    {
        self.implied.start(trail.reserved())?;
        self.looked.start(trail.reserved())?;
        Ok(())
    }

    /// Follows the chains of the variables of literals.
    fn follow_all(
        &mut self,
        marks: &Marks,
        store: &ClauseStore,
        trail: &Trail,
        lits: &[InLit],
    ) -> Result<(), NoMemory>
        requires reasoned { IsTrue (reasoned store.now.held trail.now.steps) }
        requires at { AtChains store.now.held trail.now (is_marked marks.now) self.old }
        ensures { OnOk result (AtChains store.now.held trail.now (is_marked marks.now) self.new) }
    {
        for lit in lits {
            self.follow(marks, store, trail, lit.var)?;
        }
        Ok(())
    }

    /// Follows the chains of a variable, up to its being implied, or to a variable that is not
    /// settled and has no reason, or one that was looked at.
    fn follow(
        &mut self,
        marks: &Marks,
        store: &ClauseStore,
        trail: &Trail,
        var: Inner,
    ) -> Result<(), NoMemory>
        requires reasoned { IsTrue (reasoned store.now.held trail.now.steps) }
        requires at { AtChains store.now.held trail.now (is_marked marks.now) self.old }
        ensures { OnOk result (AtChains store.now.held trail.now (is_marked marks.now) self.new) }
    {
        self.links.clear();
        self.begin(trail, var)?;
        'chain: while let Some(link) = self.links.pop() {
            if !self.go_on(marks, store, trail, link)? {
                return Ok(());
            }
        }
        Ok(())
    }

    /// Goes on with a link that was taken from the end of the chain: its variable is implied, or the
    /// chain goes on with the first variable that is not settled, if it has a reason that was not
    /// looked at.
    fn go_on(
        &mut self,
        marks: &Marks,
        store: &ClauseStore,
        trail: &Trail,
        link: Link,
    ) -> Result<bool, NoMemory>
        requires reasoned { IsTrue (reasoned store.now.held trail.now.steps) }
        requires chain { InChain store.now.held trail.now (is_marked marks.now) self.old }
        requires fits { Fits store.now.held trail.now.steps (either (is_marked marks.now) (is_marked self.old.implied)) link }
        ensures chain { OnOk result (InChain store.now.held trail.now (is_marked marks.now) self.new) }
        ensures less { IfOk result (λ on. IsTrue on → left_over trail.now.steps self.new ≤ left_over trail.now.steps self.old) }
    {
        let Some(open) = self.first_open(marks, store, trail, link) else {
            let _level = self.implied.mark(trail, link.var)?;
            return Ok(true);
        };
        self.links.push(Link {
            var: link.var,
            reason: link.reason,
            passed: open.place,
        })?;
        self.begin(trail, open.var)
    }

    /// Begins to look at the reason of a variable, if it has one that was not looked at.
    fn begin(&mut self, trail: &Trail, var: Inner) -> Result<bool, NoMemory>
        requires kept { IsKept trail.now }
        requires room { trail.now.reserved ≤ self.old.looked.room }
        ensures { IfOk result (λ begun. HasBegun trail.now.steps var self.old self.new begun) }
    {
        let Some(reason) = trail.reason_of(var) else {
            return Ok(false);
        };
        let Some(_level) = self.looked.mark(trail, var)? else {
            return Ok(false);
        };
        self.links.push(Link {
            var,
            reason,
            passed: 0,
        })?;
        Ok(true)
    }

    /// The first literal of a link's reason that is not settled, the link's own aside.
    fn first_open(
        &self,
        marks: &Marks,
        store: &ClauseStore,
        trail: &Trail,
        link: Link,
    ) -> Option<Open>
        requires reasoned { IsTrue (reasoned store.now.held trail.now.steps) }
        requires fits { Fits store.now.held trail.now.steps (either (is_marked marks.now) (is_marked self.now.implied)) link }
        ensures some { IfSome result (λ stop. Fits store.now.held trail.now.steps (either (is_marked marks.now) (is_marked self.now.implied)) (record link { passed = stop.place })) }
        ensures none { IfNone result (IsPassedWhole store.now.held trail.now.steps (either (is_marked marks.now) (is_marked self.now.implied)) link) }
    {
        let lits = store.lits(link.reason);
        'pass: for place in link.passed..lits.len() {
            let var = lits[place].var;
            if !self.is_own_or_settled(marks, trail, link.var, var) {
                return Some(Open { var, place });
            }
        }
        None
    }

    fn is_own_or_settled(&self, marks: &Marks, trail: &Trail, own: Inner, var: Inner) -> bool
        ensures { result ≡ own_or_settled (either (is_marked marks.now) (is_marked self.now.implied)) trail.now.steps own.0 var.0 }
    {
        var.0 == own.0
            || marks.contains(var)
            || self.implied.contains(var)
            || trail.level_of(var).unwrap_or(0) == 0
    }

    /// A literal and those of others that are not implied.
    fn kept(&self, alloc: Global, first: InLit, others: &[InLit]) -> Result<List<InLit>, NoMemory>
        ensures { IfOk result (λ kept. kept ≡ first ∷ filter (λ l. not (is_marked self.now.implied l.var.0)) others.now) }
    {
        let mut kept = List::new(alloc);
        kept.push(first)?;
        for lit in others {
            if !self.implied.contains(lit.var) {
                kept.push(*lit)?;
            }
        }
        Ok(kept)
    }
}

/// The greatest level of literals, or 0 where there are none.
fn greatest_level(trail: &Trail, lits: &[InLit]) -> u32
    ensures { IsGreatest trail.now.steps lits.now result }
{
    let mut greatest: u32 = 0;
    for lit in lits {
        greatest = greatest.max(trail.level_of(lit.var).unwrap_or(0));
    }
    greatest
}
