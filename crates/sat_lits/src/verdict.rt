use crate::list::List;
use crate::literal::Lit;

/// The answer to a question.
#[derive(Debug, Drop)]
pub enum Verdict {
    /// Satisfiable, by these values of the variables in order.
    Sat(List<bool>),
    /// Unsatisfiable under the assumptions: these failed ones alone contradict the formula.
    Unsat(List<Lit>),
}
