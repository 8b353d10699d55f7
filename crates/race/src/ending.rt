ghost use Rattle.std.specs.Prelude.{◌≡◌, ◌⊎◌};
ghost use Rattle.race.specs.Running.{IsFound, IsLate};

use sat_lits::Verdict;

/// How the run of a solver ended, or how several runs ended together.
#[derive(Debug, Drop)]
pub(crate) enum Ending {
    /// An outcome is there: its own verdict was posted, or another outcome was.
    Over,
    /// It found a verdict, and another outcome was first.
    Late(Verdict),
    /// The conflicts of the call are the limit.
    Spent,
    /// Memory ran out.
    Memory,
}

impl Ending {
    /// How this run and another one ended together. A verdict that came late stays before all, then
    /// that there is an outcome, and then want of memory; so both spent their limits where that is
    /// said of them together.
    pub(crate) fn with(self, other: Ending) -> Ending
        ensures one { (result ≡ self) ⊎ (result ≡ other) }
        ensures spent { result ≡ Ending.Spent → (self ≡ Ending.Spent) × (other ≡ Ending.Spent) }
        ensures found { IsFound self ⊎ IsFound other → IsFound result }
        ensures late { IsLate self ⊎ IsLate other → IsLate result }
    {
        match (self, other) {
            (Ending::Late(verdict), _) | (_, Ending::Late(verdict)) => Ending::Late(verdict),
            (Ending::Over, _) | (_, Ending::Over) => Ending::Over,
            (Ending::Memory, _) | (_, Ending::Memory) => Ending::Memory,
            (Ending::Spent, Ending::Spent) => Ending::Spent,
        }
    }

    /// How the run ended for a race that lost its solver for want of memory.
    pub(crate) fn without_solver(self) -> Ending
        ensures one { (result ≡ self) ⊎ (result ≡ Ending.Memory) }
        ensures found { IsFound self → result ≡ self }
        ensures spent { result ≡ Ending.Spent → ⊥ }
    {
        match self {
            Ending::Spent => Ending::Memory,
            ending => ending,
        }
    }
}
