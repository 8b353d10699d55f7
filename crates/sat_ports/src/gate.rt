ghost use Rattle.std.specs.Prelude.{IsTrue};

/// What may hold the solvers of a race, by their numbers, so that a test can order what they do. It
/// promises nothing.
pub trait Gate {
    /// Whether a solver may begin.
    fn may_start(&self, solver: u32) -> bool;

    /// Whether a solver may search for an interval more.
    fn may_search(&self, solver: u32) -> bool;

    /// A solver had a turn: since the race began it took so many entries of other solvers, and gave
    /// so many.
    fn told(&self, solver: u32, taken: u64, given: u64);
}

/// Always says yes.
#[derive(Clone, Copy, Debug)]
pub struct OpenGate;

impl OpenGate {
    pub fn new() -> OpenGate {
        OpenGate
    }
}

impl Gate for OpenGate {
    fn may_start(&self, _solver: u32) -> bool
        ensures { IsTrue result }
    {
        true
    }

    fn may_search(&self, _solver: u32) -> bool
        ensures { IsTrue result }
    {
        true
    }

    fn told(&self, _solver: u32, _taken: u64, _given: u64) {}
}
