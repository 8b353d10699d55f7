use sat_lits::{List, Own};

/// A parity over at most four own variables: an odd number of them is true exactly if `rhs`.
#[derive(Debug, Drop)]
pub struct Piece {
    pub vars: List<Own>,
    pub rhs: bool,
    /// The variable that was made for this piece, the last of its variables.
    pub fresh: Option<Own>,
}
