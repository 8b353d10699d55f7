ghost use Rattle.std.specs.Prelude.{◌≡◌};
ghost use Rattle.analyze.specs.Counting.{saturated};

use std::marker::Model;

/// A count of learned clauses, which `Analyzer::learn` alone raises.
#[derive(Debug, Drop)]
pub struct Tally {
    count: u64,
}

impl Model for Tally {
    ghost use Rattle.std.specs.Prelude.{ℕ};

    ghost Value = { ℕ };

    ghost view = { λ tally. tally.count };
}

impl Tally {
    /// A count of 0.
    pub fn new() -> Tally
        ensures { result ≡ 0 }
    {
        Tally { count: 0 }
    }

    /// The count. It stays at 18446744073709551615 once it is there.
    pub fn count(&self) -> u64
        ensures { result ≡ self.now }
    {
        self.count
    }

    /// Adds the count of another tally and leaves 0 there. Where the sum is above the last value,
    /// that is the count.
    pub fn pour(&mut self, from: &mut Tally)
        ensures sum { self.new ≡ saturated self.old from.old }
        ensures emptied { from.new ≡ 0 }
    {
        self.count = self.count.saturating_add(from.count);
        from.count = 0;
    }

    /// Counts one more.
    pub(crate) fn raise(&mut self)
        ensures { self.new ≡ saturated self.old 1 }
    {
        self.count = self.count.saturating_add(1);
    }
}
