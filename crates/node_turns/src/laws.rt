ghost use Rattle.node_turns.specs.Room.{RoomLiesBetween};

/// Between two positions with room each has as much.
pub fn room_laws()
    ensures between { RoomLiesBetween }
{}
