//! A property that is read among all of a Thing.

use crate::NoMemory;
use std::alloc::Global;
use std::marker::Model;
use thing_site::Spot;
use wot_json::{Bytes, quoted};

/// A property to read, and its name as a JSON text. Contracts see the property.
#[derive(Drop)]
pub struct Field<'a> {
    spot: Spot<'a>,
    name: Bytes,
}

impl<'a> Model for Field<'a> {
    ghost use Rattle.std.specs.Prelude.{◌≡◌};
    ghost use Rattle.wot_json.specs.Json.{json_string};
    ghost use Rattle.thing_site.specs.Site.{Placed};
    ghost use Rattle.thing_site.specs.SiteCodes.{placed_code};

    ghost Value = { Placed };

    ghost coded = { placed_code };

    ghost view = { λ f. f.spot };

    ghost invariant = { λ f. f.name ≡ json_string f.spot.affordance.name };
}

impl<'a> Field<'a> {
    ghost use Rattle.std.specs.Prelude.{◌≡◌, IfOk};
    ghost use Rattle.wot_json.specs.Json.{json_string};

    /// A property to read. The text of its name is made here.
    pub fn of(alloc: Global, spot: Spot<'a>) -> Result<Field<'a>, NoMemory>
        ensures { IfOk result (λ f. f ≡ spot.entry) }
    {
        let name = quoted(alloc, spot.affordance().name.as_str())?;
        Ok(Field { spot, name })
    }

    /// The property.
    pub fn spot(&self) -> &Spot<'a>
        ensures { result.now ≡ self.now }
    {
        &self.spot
    }

    /// Its name as a JSON text.
    pub fn name(&self) -> &[u8]
        ensures { result.now ≡ json_string self.now.affordance.name }
    {
        self.name.as_slice()
    }
}
