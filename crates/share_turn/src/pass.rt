use crate::held::Held;
use crate::view::View;
use atomic_table::Seat;
use std::marker::Model;

/// The token by which one solver uses an exchange.
///
/// Contracts see the exchange that it belongs to and its view. Between two calls it has the turn
/// with the store in hand, or not at all, and claims nothing.
#[derive(Drop)]
pub struct Pass {
    pub(crate) seat: Seat<Option<Held>, View>,
}

impl Model for Pass {
    ghost use Rattle.share_turn.specs.Views.{Known, known_of};
    ghost use Rattle.share_turn.specs.Steps.{IsAtRest};

    ghost Value = { Known };

    ghost view = { λ pass. known_of pass.seat.table_id pass.seat.me.0 };

    ghost invariant = { λ pass. IsAtRest pass.seat.me };
}
