//! The texts of the tour.

/// Texts that have one right output.
pub const SURE: [&str; 14] = [
    "",
    CONTRADICTION,
    TWO_QUESTIONS,
    "-1 0\nc Solver::solve( 1 1 )\n",
    "x1 2 0\nx2 3 0\nx1 3 0\n",
    "x-1 2 0\n1 0\n",
    "x1 1 0\n",
    "x0\n",
    "1 -2 0\n-1 2 0\nc Solver::solve( 1 )\nc Solver::solve( 1 -2 )\n-1 0\n",
    "1\n2 0 -1 0 -2\nc between the lines\n3 0\n",
    "c uf\np cnf 2 2\n1 -2 0\n2 0\n%\n0\n",
    "1 0\np cnf 1 1\n",
    "x-1 -2 -3 0\n1 0\n2 0\n",
    NO_MODEL,
];

/// Texts whose models are several.
pub const OPEN: [&str; 6] = [
    "c Solver::solve( 3 -3 )\n",
    "1 2 0\n-1 3 0\nc Solver::solve( )\n-2 0\n-3 0\n",
    "-1 2 0\n-2 3 0\n-3 4 0\nc Solver::solve( )\nc Solver::solve( 1 -4 )\nc Solver::solve( 1 )\n",
    "c Solver::new_vars( 2 )\n-2 0\n",
    CIRCUIT,
    "x1 1 2 0\n",
];

/// Texts that are refused.
pub const REFUSED: [&str; 5] = [
    "1 2",
    "1 a 0\n",
    "16777216 0\n",
    "1 c Solver::solve( )\n0\n",
    "c Solver::solve( 1\n",
];

/// Two clauses that contradict each other.
pub const CONTRADICTION: &str = "p cnf 1 2\n1 0\n-1 0\n";

/// One model, and a question whose assumption it does not make true.
pub const TWO_QUESTIONS: &str = "1 2 0\n-1 2 0\n1 -2 0\nc Solver::solve( -1 )\n";

/// Two variables and no model.
pub const NO_MODEL: &str = "1 2 0\n-1 2 0\n1 -2 0\n-1 -2 0\n";

/// Two clauses of one literal, in eight bytes.
pub const TWO_UNITS: &str = "1 0\n2 0\n";

/// A question, and a clause behind it.
pub const ONE_MODEL: &str = "1 0\nc Solver::solve( )\n2 0\n";

/// A small circuit with two questions.
pub const CIRCUIT: &str = "c a small circuit\np cnf 4 5\n1 2 0\n-1 3 0\nx2 3 4 0\n\
    c Solver::solve( 1 -3 )\n-4 0\nc Solver::solve()\n";
