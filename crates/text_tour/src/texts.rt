//! The texts of the tour, by what they show.

pub const CLAUSES: [&str; 9] = [
    "",
    "1 2 0\n-1 3 0\n",
    "1 2 0",
    "1\n2 0 -1 0 -2\nc between the lines\n3 0\n",
    "\t1\r\n2 \n 3\n\n0",
    "0 00\n",
    "0001 -02 0\n",
    "1 1 -1 0\n",
    "16777215 0\n",
];

pub const PARITIES: [&str; 5] = [
    "x1 2 0\nx-1 2 0\n",
    "x1 1 0\nx0\n",
    "x -1 -2 -3 0\n",
    "x\n0",
    "x1 c a comment\n2 0\n",
];

pub const HEADERS: [&str; 5] = [
    "p cnf 3 2\n1 -3 0\n2 0\n",
    "4 0\np cnf 2 9\n",
    "p\ncnf 3\n99999999999999999999\np cnf 0 0\n",
    "p cnf 0003 0 5 0",
    "p cnf 1 1",
];

pub const COMMENTS: [&str; 6] = [
    "c\ncomment\n1 0 c and more\n",
    "1 c one\n0 c two",
    "c Solver::solve\nc Solver::solves( 1 )\nc Solver::Solve( 1 )\n",
    "cSolver::solve( 1 )\nc1 Solver::solve( 1 )\nc solve( 1 )\n",
    "c Solver::new_var( 2 )\nc Solver:: solve( )\nc Solver :: solve()",
    "c Solver::solve 1 )\nc Solver::solve x( 1 )\nc Solver::new_vars2( 3 )\n",
];

pub const COMMANDS: [&str; 11] = [
    "c Solver::solve( 1 -2 )\n",
    "c Solver::solve()\nc\t Solver::solve \t ()\n",
    "c Solver::solve(1 -2)x 0\n3 0\n",
    "c Solver::solve( 1 ) ) a (\n",
    "c Solver::solve( 3 -3 )",
    "comment Solver::solve( 1 )\n1 0 c Solver::solve( 1 )",
    "c Solver::new_vars( 2 )\n-2 0\n",
    "c Solver::new_vars(0)\nc Solver::new_vars( 007 )z\n",
    "5 0 c Solver::new_vars( 3 )\n",
    "c Solver::solve( 9 )\nc Solver::new_vars( 1 )\n",
    "c a small circuit\np cnf 4 5\n1 2 0\n-1 3 0\nx2 3 4 0\nc Solver::solve( 1 -3 )\n-4 0\nc Solver::solve()\n",
];

pub const ENDED: [&str; 5] = [
    "%",
    "c uf\np cnf 2 2\n1 -2 0\n2 0\n%\n0\n",
    "1 0 %rest 2 a",
    "%\n1 0\nc Solver::solve( )\n",
    "c %\n1 0 c %",
];

pub const BAD_TOKENS: [&str; 26] = [
    "a\n",
    "1 a 0\n",
    "1 0 a",
    "1- 0",
    "--1 0",
    "+1 0",
    "- 1 0",
    "-0 0",
    "1 -00 0",
    "1% 0",
    "1c a comment\n0",
    "xa 0",
    "x-0 0",
    "xx1 0",
    "1 x2 0",
    "1 p 0",
    "pcnf 1 1\n",
    "p dnf 1 1\n",
    "p cnff 1 1\n",
    "p cn",
    "p cnf -1 2\n",
    "p cnf 1 -2\n",
    "p cnf % 2",
    "p\ncnf c 2\n",
    "p c",
    "p\ncnf\n3 c\n",
];

pub const BAD_COMMANDS: [&str; 18] = [
    "c Solver::solve( 1 0 )\n",
    "c Solver::solve( a",
    "c Solver::solve( % )\n",
    "c Solver::solve( c )\n",
    "c Solver::solve( x1 )\n",
    "c Solver::solve( 1\n",
    "c Solver::solve(\n2 )",
    "c Solver::new_vars( )\n",
    "c Solver::new_vars()\n",
    "c Solver::new_vars( 1 2 )\n",
    "c Solver::new_vars( 1 a )\n",
    "c Solver::new_vars( -1 )\n",
    "c Solver::new_vars( \n",
    "c Solver::new_vars( 1\n",
    "1 c Solver::solve( )\n0\n",
    "x c Solver::new_vars( 1 )\n0\n",
    "1 c Solver::solve( a\n0\n",
    "1 c Solver::solve(",
];

pub const LARGE_VARIABLES: [&str; 10] = [
    "16777216 0\n",
    "1 -16777216 0",
    "99999999999999999999999999 0",
    "16777216a 0",
    "x16777216 0",
    "p cnf 16777216 2\n",
    "c Solver::solve( 16777216 )\n",
    "c Solver::new_vars( 16777216 )\n",
    "c Solver::new_vars( 16777216 2 )\n",
    "c Solver::new_vars( 16777216 x",
];

pub const TRUNCATED: [&str; 15] = [
    "1 2",
    "1 2\n",
    "1",
    "1 0 2 c end",
    "1 %",
    "x1 %\n0",
    "x",
    "x 1",
    "p",
    "p cnf 3",
    "p cnf 3 \n",
    "c Solver::solve(",
    "c Solver::solve( 1",
    "c Solver::new_vars( 2",
    "c Solver::new_vars( ",
];

pub const FEW_LITERALS: [&str; 12] = [
    "1 2 0 1 2 0",
    "1 2 3 0 0 x0\n",
    "x1 2 3 4 0",
    "1 2 3 0 x4 0",
    "c Solver::solve( 1 2 )\n-1 -2 0",
    "1 2 3 0\nc Solver::solve( 1 )\n",
    "1 2 3 4a 0",
    "1 2 3 6 0",
    "6 0",
    "p cnf 6 1\n",
    "3 0 c Solver::new_vars( 2 )",
    "c Solver::new_vars( 3 )\nc Solver::new_vars( 3 )\n",
];

pub const FOUR_BYTES: [&str; 11] = [
    "1 0\n",
    "1 0\n2 0\n",
    "12 0\n",
    "1 a 0",
    "12 a ",
    "0  %x",
    "1 0 %",
    "1 %a0",
    "c a\n1",
    "c abc",
    "1 2 ",
];

pub const NO_BYTES: [&str; 2] = ["", "%"];
