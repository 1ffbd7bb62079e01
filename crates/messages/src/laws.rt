ghost use Rattle.messages.specs.Rows.{OrderRows, RoomRows, GoneRows, RefusedRows};
ghost use Rattle.messages.specs.Standing.{StandingLaw};
ghost use Rattle.messages.specs.Stretches.{StretchLaw};

/// The laws of the window, proved of its definitions. A call of it does nothing.
///
/// `standing`: after any calls with any answers the lines stand in their order, no two have one
/// number, and at most twelve stand. `stretch`: which texts may come in another order. `orders`,
/// `room`, `gone` and `refused`: worked rows.
pub fn messages_stand()
    ensures standing { StandingLaw }
    ensures stretch { StretchLaw }
    ensures orders { OrderRows }
    ensures room { RoomRows }
    ensures gone { GoneRows }
    ensures refused { RefusedRows }
{}
