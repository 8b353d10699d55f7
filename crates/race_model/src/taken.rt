use sat_lits::List;

/// What one solver took.
#[derive(Debug, Drop)]
pub struct Taken {
    /// How many items of the formula, from its front.
    pub items: u64,
    /// At which places of the log, in the order in which it took them, with repeats.
    pub places: List<u64>,
}
