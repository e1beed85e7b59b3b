//! The models of a library with values in place of their placeholders, of which none is built.

/// A model of a library that was made ready to be entered.
#[derive(Drop)]
struct Prepared<'a> {
    location: Location,
    tree: &'a Tree,
    fault: Option<PartFault>,
}

/// The models of a library with values in place of their placeholders. Contracts see the list of URLs, each with the
/// model that it leads to or the first fault of that, in the byte order of the URLs.
#[derive(Drop)]
pub struct Sources<'a> {
    models: Vec<Prepared<'a>>,
    values: Values<'a>,
}

impl<'a> Model for Sources<'a> {
    ghost use Rattle.std.specs.Prelude.{List, ℕ, Result};
    ghost use Rattle.std.specs.Coded.{codes};
    ghost use Rattle.wot_json.specs.JsonCodes.{json_code};
    ghost use Rattle.wot_json.specs.Tree.{Json};
    ghost use Rattle.tm_parts.specs.declared.substitution.PartFault.{PartFault};

    ghost Value = { List (List ℕ × Result Json PartFault) };

    ghost coded = { Prim.hlevel (codes, json_code) };

    ghost use Rattle.std.specs.Cmp.Lexicographic.{slice_cmp};
    ghost use Rattle.std.specs.List.Sorted.{IsStrictlySortedBy};
    ghost use Rattle.std.specs.Ordering.{nat_cmp};
    ghost use Rattle.tm_parts.specs.Prepared.{prepared_sources, prepared_urls};

    ghost view = { λ s. prepared_sources s.models.items s.values };

    ghost invariant = { λ s. IsStrictlySortedBy (slice_cmp nat_cmp) (prepared_urls s.models.items) };
}

ghost use Rattle.std.specs.Cmp.Lexicographic.{slice_cmp};
ghost use Rattle.std.specs.List.Sorted.{IsStrictlySortedBy};
ghost use Rattle.std.specs.Ordering.{nat_cmp};
ghost use Rattle.std.specs.Prelude.{◌≡◌, IfOk, IfSome, option_map};
ghost use Rattle.wot_json.specs.Meaning.{json_of};
ghost use Rattle.tm_parts.specs.Prepared.{prepared_source, prepared_sources, prepared_urls};
ghost use Rattle.tm_parts.specs.Sources.{kept_source, source_named, sources_of, substitution};

use crate::bindings::Bindings;
use crate::judging::judge;
use crate::library::Library;
use crate::location::Location;
use crate::substitution::PartFault;
use crate::values::Values;
use crate::view::View;
use servient_base::NoMemory;
use std::alloc::{AllocError, Global};
use std::cmp::Ordering;
use std::marker::Model;
use wot_json::Tree;

/// A model with values in place of its placeholders, as a step enters it.
#[derive(Clone, Copy)]
pub struct Source<'a> {
    /// The location of the model.
    pub location: &'a Location,
    /// The model with the values, or the first fault of putting them in, which is never out of memory.
    pub model: Result<View<'a>, &'a PartFault>,
}

impl<'a> Sources<'a> {
    /// Parses the URL of each model, and judges it with the values, once: a step into a model is then a look-up. Its
    /// time is in proportion to the library and the bindings, and for each placeholder to the logarithm of the number
    /// of bindings; how long values are doesn't matter.
    pub fn new(
        alloc: Global,
        library: &'a Library,
        bindings: &'a Bindings,
    ) -> Result<Self, NoMemory>
        ensures { IfOk result (λ sources. sources ≡ sources_of library.now bindings.now) }
    {
        let values = Values::new(alloc, bindings)?;
        let models = prepare_all(alloc, library, &values)?;
        Ok(Sources { models, values })
    }

    /// The model under this URL, found by binary search.
    pub fn get(&self, url: &str) -> Option<Source<'_>>
        ensures model { option_map kept_source result ≡ source_named url.now self.now }
        ensures location { IfSome result (λ s. s.location.now ≡ url.now) }
    {
        let order = |model: &Prepared| -> Ordering
            ensures { result ≡ slice_cmp nat_cmp model.now.location url.entry.now }
        { model.location.as_str().cmp(url) };
        match self.models.binary_search_by(order) {
            Ok(place) => Some(entered(&self.models[place], &self.values)),
            Err(_) => None,
        }
    }
}

/// A model as it is entered.
fn entered<'s, 'a>(prepared: &'s Prepared<'a>, values: &'s Values<'a>) -> Source<'s>
    ensures model { kept_source result ≡ prepared_source prepared.now values.now }
    ensures location { result.location.now ≡ prepared.now.location }
{
    let location = &prepared.location;
    let view = View {
        tree: prepared.tree,
        values: Some(values),
    };
    let model = match &prepared.fault {
        None => Ok(view),
        Some(fault) => Err(fault),
    };
    Source { location, model }
}

/// Makes all models of a library ready, in the byte order of their URLs.
fn prepare_all<'a>(
    alloc: Global,
    library: &'a Library,
    values: &Values<'_>,
) -> Result<Vec<Prepared<'a>>, NoMemory>
    ensures models { IfOk result (λ v. prepared_sources v.items values.now ≡ sources_of library.now values.now) }
    ensures ordered { IfOk result (λ v. IsStrictlySortedBy (slice_cmp nat_cmp) (prepared_urls v.items)) }
{
    let entries = library.entries();
    let mut models = Vec::with_capacity(alloc, entries.len())?;
    for (url, tree) in entries.iter() {
        let model = prepare(alloc, url.as_str(), tree, values)?;
        models.push(model).map_err(AllocError::from)?;
    }
    Ok(models)
}

/// Parses the URL of a model, and judges the model with the values.
fn prepare<'a>(
    alloc: Global,
    url: &str,
    tree: &'a Tree,
    values: &Values<'_>,
) -> Result<Prepared<'a>, NoMemory>
    ensures url { IfOk result (λ p. p.location ≡ url.now) }
    ensures model { IfOk result (λ p. prepared_source p values.now ≡ substitution (json_of tree.now) values.now) }
{
    let location = Location::new(alloc, url)?;
    let fault = match judge(alloc, tree, values) {
        Ok(()) => None,
        Err(PartFault::NoMemory) => return Err(AllocError),
        Err(fault) => Some(fault),
    };
    Ok(Prepared {
        location,
        tree,
        fault,
    })
}
