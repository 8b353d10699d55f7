use sat_lits::List;

/// What an interval came to.
#[derive(Debug, Drop)]
pub enum IntervalAnswer {
    /// A value for each inner number, under which the hard clauses and the assumptions are true.
    Model(List<bool>),
    /// Rising positions of assumptions that contradict the clauses.
    Failed(List<u32>),
    /// The interval made its own number of conflicts.
    IntervalOver,
    /// It made the number of conflicts that was left.
    Spent,
    /// The stop test asked for a stop.
    Asked,
    /// Memory ran out.
    Memory,
}
