ghost use Rattle.std.specs.Prelude.{◌≡◌, ◌<◌, [], ◌∷◌, ◌++◌, Some, length, slice_get, OnOk, OnErr};

use crate::piece::Piece;
use sat_lits::NoMemory;
use std::alloc::Global;
use std::marker::Model;

/// The pieces of one parity, in the order in which they were cut.
#[derive(Debug, Drop)]
pub struct Pieces {
    items: Vec<Piece>,
}

impl Model for Pieces {
    ghost use Rattle.std.specs.Prelude.{List};
    ghost use Rattle.xor_cut.specs.declared.piece.Piece.{Piece};

    ghost Value = { List Piece };

    ghost view = { λ pieces. pieces.items.items };
}

impl Pieces {
    /// No pieces. It takes no memory.
    pub(crate) fn new(alloc: Global) -> Pieces
        ensures { result ≡ [] }
    {
        Pieces {
            items: Vec::new(alloc),
        }
    }

    /// Appends a piece. For want of memory the pieces stay as they were.
    pub(crate) fn push(&mut self, piece: Piece) -> Result<(), NoMemory>
        ensures ok { OnOk result (self.new ≡ self.old ++ piece ∷ []) }
        ensures err { OnErr result (self.new ≡ self.old) }
    {
        self.items.push(piece)?;
        Ok(())
    }

    /// The number of pieces.
    pub fn len(&self) -> usize
        ensures { result ≡ length self.now }
    {
        self.items.len()
    }

    /// The piece at a place, counted from 0.
    pub fn get(&self, at: usize) -> &Piece
        requires { at < length self.now }
        ensures { slice_get self.now at ≡ Some result.now }
    {
        &self.items[at]
    }
}
