//! Laws of a directory whose entries have times, as contracts of functions that do nothing.

ghost use Rattle.wot_registry.specs.Laws.{GivesOutWhatStands, ListsWhatStands, PutIsFullExactly, CreateIsFullExactly};

/// Over all calls at moments that never fall the directory gives out exactly the entries whose time to live hasn't
/// passed since their last change: each alone, and all in the byte order of their ids.
pub fn gives_out_what_stands()
    ensures alone { GivesOutWhatStands }
    ensures listed { ListsWhatStands }
{}

/// It is full exactly where no earlier fault holds, 4,096 entries stand, and the id is new.
pub fn is_full_exactly()
    ensures put { PutIsFullExactly }
    ensures create { CreateIsFullExactly }
{}
