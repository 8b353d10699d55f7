ghost use Rattle.std.specs.Prelude.{◌≡◌, IfSome, IfNone, IsTrue};
ghost use Rattle.search.specs.Answers.{EndsRight, IsBelow, IsUpTo, is_count};

use crate::answer::IntervalAnswer;

/// The numbers of conflicts at which an interval ends: its own, and what is left to the caller.
#[derive(Clone, Copy, Debug, Drop)]
pub struct IntervalEnds {
    pub own: Option<u64>,
    pub left: Option<u64>,
}

impl IntervalEnds {
    /// The answer for a number of conflicts, where it is one at which the interval ends. What is
    /// left goes before the interval's own number.
    pub fn reached(self, conflicts: u64) -> Option<IntervalAnswer>
        requires own { IsUpTo conflicts self.own }
        requires left { IsUpTo conflicts self.left }
        ensures some { IfSome result (EndsRight self.own self.left conflicts) }
        ensures count { IfSome result (λ answer. IsTrue (is_count answer)) }
        ensures own { IfNone result (IsBelow conflicts self.own) }
        ensures left { IfNone result (IsBelow conflicts self.left) }
    {
        if self.left == Some(conflicts) {
            Some(IntervalAnswer::Spent)
        } else if self.own == Some(conflicts) {
            Some(IntervalAnswer::IntervalOver)
        } else {
            None
        }
    }
}
