//! The texts of the tour.

/// Texts that have one right output.
pub const SURE: [&str; 17] = [
    "",
    "p cnf 1 2\n1 0\n-1 0\n",
    "1 2 0\n-1 2 0\n1 -2 0\nc Solver::solve( -1 )\n",
    "-1 0\nc Solver::solve( 1 1 )\n",
    "x1 2 0\nx2 3 0\nx1 3 0\n",
    "x-1 2 0\n1 0\n",
    "x1 1 0\n",
    "x0\n",
    "1 -2 0\n-1 2 0\nc Solver::solve( 1 )\nc Solver::solve( 1 -2 )\n-1 0\n",
    "1\n2 0 -1 0 -2\nc between the lines\n3 0\n",
    "c uf\np cnf 2 2\n1 -2 0\n2 0\n%\n0\n",
    "1 2 0\n-1 2 0\n1 -2 0\n-1 -2 0\n",
    "1 2\n",
    "1 a 0\n",
    "16777216 0\n",
    "1 c Solver::solve( )\n0\n",
    "c Solver::solve( 1\n",
];

/// Texts whose models are several.
pub const OPEN: [&str; 5] = [
    "c Solver::solve( 3 -3 )\n",
    "1 2 0\n-1 3 0\nc Solver::solve( )\n-2 0\n-3 0\n",
    "-1 2 0\n-2 3 0\n-3 4 0\nc Solver::solve( )\nc Solver::solve( 1 -4 )\nc Solver::solve( 1 )\n",
    "c Solver::new_vars( 2 )\n-2 0\n",
    "c a small circuit\np cnf 4 5\n1 2 0\n-1 3 0\nx2 3 4 0\nc Solver::solve( 1 -3 )\n-4 0\nc Solver::solve()\n",
];

/// Two variables and no model.
pub const NO_MODEL: &str = "1 2 0\n-1 2 0\n1 -2 0\n-1 -2 0\n";

/// One clause of one literal.
pub const ONE_UNIT: &str = "1 0\n";

/// A parity of ten variables, nine of which are given.
pub const LONG_PARITY: &str =
    "x1 2 3 4 5 6 7 8 9 10 0\n1 0\n2 0\n3 0\n4 0\n5 0\n6 0\n7 0\n8 0\n9 0\n";

/// Words that are not taken.
pub const REFUSED_WORDS: [&[&str]; 9] = [
    &["--threads", "0"],
    &["--threads", "65"],
    &["--threads", "2", "--threads", "2"],
    &["--threads=4", "--threads"],
    &["--print-shared", "--print-shared"],
    &["--vars", "9"],
    &["--make", "1", "--print-shared"],
    &["--help"],
    &["--"],
];
