ghost use Rattle.std.specs.Prelude.{◌≡◌};
ghost use Rattle.pick_order.specs.Candidates.{comes_first};

use sat_lits::Inner;

/// Activities that are rescaled are divided by this, which is to halve them 32 times.
pub const SCALE: u64 = 1 << 32;

/// What is known of an active variable: how early it is decided, and whether true is tried first.
#[derive(Clone, Copy, Debug, PartialEq, Eq)]
pub struct Preference {
    pub activity: u64,
    pub phase: bool,
}

/// A variable that may be decided next.
#[derive(Clone, Copy, Debug, PartialEq, Eq)]
pub struct Candidate {
    pub activity: u64,
    pub var: Inner,
}

impl Candidate {
    /// Whether this candidate is decided before another.
    pub fn comes_first(self, other: Candidate) -> bool
        ensures { result ≡ comes_first self other }
    {
        other.activity < self.activity
            || (self.activity == other.activity && self.var.0 <= other.var.0)
    }
}
