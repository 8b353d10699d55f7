// The kinds of step that the calls are made of. Each type says what the step tells its pass; no value
// of it is made.
use crate::held::Held;
use crate::view::View;
use atomic_table::{Join, Play, Split};

/// Tries to win the turn.
pub(crate) struct Try;

impl Play<Option<Held>, View> for Try {
    ghost use Rattle.share_turn.specs.Steps.{tried};

    ghost then = { tried };
}

/// Takes the store from its slot.
pub(crate) struct LiftStore;

impl Play<Option<Held>, View> for LiftStore {
    ghost use Rattle.share_turn.specs.Steps.{lifted};

    ghost then = { lifted };
}

/// Leaves the slot empty, with the store in hand.
pub(crate) struct HoldStore;

impl Play<Option<Held>, View> for HoldStore {
    ghost use Rattle.share_turn.specs.Steps.{emptied};

    ghost then = { emptied };
}

/// Takes the empty slot.
pub(crate) struct ReachBack;

impl Play<Option<Held>, View> for ReachBack {
    ghost use Rattle.share_turn.specs.Steps.{reached};

    ghost then = { reached };
}

/// Puts the store into its slot.
pub(crate) struct PutBack;

impl Play<Option<Held>, View> for PutBack {
    ghost use Rattle.share_turn.specs.Steps.{landed};

    ghost then = { landed };
}

/// Lets the turn go.
pub(crate) struct Release;

impl Play<Option<Held>, View> for Release {
    ghost use Rattle.share_turn.specs.Steps.{released};

    ghost then = { released };
}

/// Learns what a joined pass had seen.
pub(crate) struct Hear;

impl Play<Option<Held>, View> for Hear {
    ghost use Rattle.share_turn.specs.Steps.{heard};

    ghost then = { heard };
}

/// Tries to claim the outcome.
pub(crate) struct Ask;

impl Play<Option<Held>, View> for Ask {
    ghost use Rattle.share_turn.specs.Steps.{asked};

    ghost then = { asked };
}

/// Takes the outcome's empty slot.
pub(crate) struct LiftOutcome;

impl Play<Option<Held>, View> for LiftOutcome {
    ghost use Rattle.share_turn.specs.Steps.{held_up};

    ghost then = { held_up };
}

/// Puts the outcome into its slot.
pub(crate) struct PutOutcome;

impl Play<Option<Held>, View> for PutOutcome {
    ghost use Rattle.share_turn.specs.Steps.{laid};

    ghost then = { laid };
}

/// Posts the outcome.
pub(crate) struct Show;

impl Play<Option<Held>, View> for Show {
    ghost use Rattle.share_turn.specs.Steps.{shown};

    ghost then = { shown };
}

/// Looks whether an outcome was posted.
pub(crate) struct Glance;

impl Play<Option<Held>, View> for Glance {
    ghost use Rattle.share_turn.specs.Steps.{looked};

    ghost then = { looked };
}

/// Splits a further pass off the first one, and joins it again.
pub(crate) struct Another;

impl Split<View> for Another {
    ghost use Rattle.share_turn.specs.Views.{divided, newcomer};

    ghost left = { divided };

    ghost right = { newcomer };
}

impl Join<View> for Another {
    ghost use Rattle.share_turn.specs.Views.{united};
    ghost use Rattle.share_turn.specs.Steps.{gone};

    ghost both = { united };

    ghost spent = { gone };
}
