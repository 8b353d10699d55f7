use sat_lits::{List, Own, OwnLit};

/// What a private variable is, over own variables that were made before it.
#[derive(Debug, Drop)]
pub enum Definition {
    /// The exclusive or of the variables: true where an odd number of them, counted with repeats,
    /// is true.
    Xor { vars: List<Own> },
    /// True where all the literals are.
    And { lits: List<OwnLit> },
}
