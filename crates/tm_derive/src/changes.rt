//! Members of a merge patch (RFC 7396), in the byte order of their names.

ghost use Rattle.std.specs.Prelude.{◌≡◌, ◌++◌, option_map, OnOk};
ghost use Rattle.wot_json.specs.Meaning.{json_of, json_members};
ghost use Rattle.tm_derive.specs.Changes.{change_of};

use servient_base::NoMemory;
use std::alloc::Global;
use wot_json::{Text, Tree};

/// Puts the change of the member of this name at the end of a patch, where there is one.
pub(crate) fn push_change(
    alloc: Global,
    patch: &mut Vec<(Text, Tree)>,
    name: &str,
    change: Option<Tree>,
) -> Result<(), NoMemory>
    ensures { OnOk result (json_members patch.new.items ≡ json_members patch.old.items
        ++ change_of name.now (option_map json_of change)) }
{
    match change {
        None => Ok(()),
        Some(value) => {
            patch.push((Text::copy_of(alloc, name)?, value))?;
            Ok(())
        }
    }
}
