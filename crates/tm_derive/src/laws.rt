//! Laws on derivations.

ghost use Rattle.tm_derive.specs.Enough.{MoreThingsChangeNothing, MoreModelsChangeNothing};

/// The room of a derivation is always enough: with more room it has the same Things, and the same is optional in each.
pub fn more_room_changes_nothing()
    ensures things { MoreThingsChangeNothing }
    ensures optional { MoreModelsChangeNothing }
{}
