//! Consequences of the definitions of lines and their fields: contracts of functions that no code needs to call.

ghost use Rattle.std.specs.Prelude.{◌≡◌, ℕ, List};
ghost use Rattle.servient_outside.specs.declared.net.EventWithBytes.{EventWithBytes};
ghost use Rattle.servient_script.specs.Fields.{fields_text, AreFields};
ghost use Rattle.servient_script.specs.Script.{line_fields, IsScriptEvent};

use crate::script::{LATEST_MOMENT, LINE_FEED, MOST_FIELDS};

/// A line is cut into fields in one way.
pub fn lines_are_cut_in_one_way()
    ensures { (fields others : List (List ℕ)) → AreFields fields → AreFields others
        → fields_text fields ≡ fields_text others → fields ≡ others }
{}

/// Each event's line is a line of fields: no blank is in any of them.
pub fn each_event_has_fields()
    ensures { (e : EventWithBytes) → IsScriptEvent e → AreFields (line_fields e) }
{}

/// The constants of scripts as numbers: the last moment, the fields of a line, and the byte at its end.
pub fn constants_are_these()
    ensures latest_moment { LATEST_MOMENT ≡ 1000000000000000 }
    ensures most_fields { MOST_FIELDS ≡ 4 }
    ensures line_feed { LINE_FEED ≡ 10 }
{}
