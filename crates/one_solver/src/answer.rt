use sat_lits::Verdict;

/// What an interval of one solver came to.
#[derive(Debug, Drop)]
pub enum StepAnswer {
    /// A verdict that is right for the items taken.
    Verdict(Verdict),
    /// The interval made its own number of conflicts.
    IntervalOver,
    /// The call made as many conflicts as its limit allows.
    Spent { count: u64 },
    /// The stop test asked for a stop.
    Asked,
    /// Memory ran out.
    Memory,
}
