ghost use Rattle.std.specs.Prelude.{◌≡◌};
ghost use Rattle.sat_lits.specs.Meaning.{negated};

/// A variable of the caller, by its number from 0.
#[derive(Clone, Copy, Debug, Default, PartialEq, Eq, PartialOrd, Ord)]
pub struct Var(pub u32);

/// A variable or its negation. Literals are ordered by variable, then the positive one first.
#[derive(Clone, Copy, Debug, Default, PartialEq, Eq, PartialOrd, Ord)]
pub struct Lit {
    pub var: Var,
    pub negative: bool,
}

impl Lit {
    /// The literal that is true where this one is false.
    pub fn negated(self) -> Lit
        ensures { result ≡ negated self }
    {
        Lit {
            var: self.var,
            negative: !self.negative,
        }
    }
}

/// A variable of one solver, by its own number from 0, in order of creation.
#[derive(Clone, Copy, Debug, PartialEq, Eq, PartialOrd, Ord)]
pub struct Own(pub u32);

/// A literal of one solver's own variable, ordered as `Lit`.
#[derive(Clone, Copy, Debug, PartialEq, Eq, PartialOrd, Ord)]
pub struct OwnLit {
    pub var: Own,
    pub negative: bool,
}

/// A variable that a solver's clauses hold now, by a packed number from 0.
#[derive(Clone, Copy, Debug, Default, PartialEq, Eq, PartialOrd, Ord)]
pub struct Inner(pub u32);

/// A literal of a packed variable, ordered as `Lit`.
#[derive(Clone, Copy, Debug, Default, PartialEq, Eq, PartialOrd, Ord)]
pub struct InLit {
    pub var: Inner,
    pub negative: bool,
}

/// Names a clause of one store.
#[derive(Clone, Copy, Debug, PartialEq, Eq, PartialOrd, Ord)]
pub struct ClauseId(pub u64);
