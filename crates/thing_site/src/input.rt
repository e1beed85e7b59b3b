//! A value that a request hands in, with the affordance that it is for.

use crate::{NoMemory, Spot};
use std::alloc::Global;
use std::marker::Model;
use wot_json::{Bytes, Tree, text_of};

/// A value of a request, with its text, and the affordance that it is for. Contracts see the affordance and the value.
#[derive(Drop)]
pub struct Input<'a> {
    pub(crate) spot: Spot<'a>,
    pub(crate) value: Tree,
    pub(crate) text: Bytes,
}

impl<'a> Model for Input<'a> {
    ghost use Rattle.std.specs.Prelude.{◌≡◌};
    ghost use Rattle.wot_json.specs.Json.{json_text};
    ghost use Rattle.wot_json.specs.Meaning.{json_of};
    ghost use Rattle.thing_site.specs.Refusals.{Input as InputSeen};
    ghost use Rattle.thing_site.specs.HandedIn.{input_code};

    ghost Value = { InputSeen };

    ghost coded = { input_code };

    ghost view = { λ i. record { affordance = i.spot; value = json_of i.value } };

    ghost invariant = { λ i. i.text ≡ json_text i.value };
}

impl<'a> Input<'a> {
    ghost use Rattle.std.specs.Prelude.{◌≡◌, IfOk};
    ghost use Rattle.wot_json.specs.Json.{text_of as text_of_value};
    ghost use Rattle.wot_json.specs.Meaning.{json_of};

    /// A value for an affordance. Its text is made here.
    pub fn of(alloc: Global, spot: Spot<'a>, value: Tree) -> Result<Input<'a>, NoMemory>
        ensures { IfOk result (λ i. i ≡ record { affordance = spot.entry; value = json_of value }) }
    {
        let text = text_of(alloc, &value)?;
        Ok(Input { spot, value, text })
    }

    /// The affordance, the value and its text.
    pub fn into_parts(self) -> (Spot<'a>, Tree, Bytes)
        ensures spot { result.0 ≡ self.entry.affordance }
        ensures value { json_of result.1 ≡ self.entry.value }
        ensures text { result.2 ≡ text_of_value self.entry.value }
    {
        (self.spot, self.value, self.text)
    }
}
