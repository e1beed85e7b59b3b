//! The library of Thing Models.

ghost use Rattle.std.specs.Prelude.{◌≡◌, ◌⊎◌, ℕ, List, [], if◌then◌else◌, IfOk, IfErr, OnOk, OnErr, option_map};
ghost use Rattle.std.specs.Str.{bytes_eq};
ghost use Rattle.wot_json.specs.Meaning.{json_of};
ghost use Rattle.wot_json.specs.Lookup.{member_named};
ghost use Rattle.tm_parts.specs.Library.{with_model, IsModelUrl, IsNoModelUrl, HasAddFault, MayAdd};
ghost use Rattle.tm_parts.specs.Library as spec;
ghost use Rattle.tm_parts.specs.Kept.{kept_models};

use servient_base::NoMemory;
use std::alloc::{AllocError, Global};
use std::collections::BTreeMap;
use std::marker::Model;
use thiserror::Error;
use url::{ParseError, Url};
use wot_json::{Tree, has_text};

/// The type that says that an object is a Thing Model.
const THING_MODEL: &str = "tm:ThingModel";

/// The reason for which a library takes no model.
#[derive(Debug, Drop, Error)]
pub enum AddFault {
    /// The text is no URL, or it has a fragment.
    #[error("no URL without a fragment")]
    BadUrl,
    /// There is a model under this very text.
    #[error("there is a model under this URL")]
    Twice,
    /// The model's `@type` doesn't contain `tm:ThingModel`.
    #[error("no Thing Model")]
    NotModel,
    /// Out of memory.
    #[error("out of memory")]
    NoMemory,
}

impl From<AllocError> for AddFault {
    ghost use Rattle.std.specs.Prelude.{◌≡◌};
    ghost use Rattle.tm_parts.specs.declared.library.AddFault.TheVariants.{NoMemory};

    ghost from_gives = { λ _ fault. fault ≡ NoMemory };

    fn from(_error: AllocError) -> AddFault {
        AddFault::NoMemory
    }
}

/// Thing Models by the texts of their URLs, which are compared byte for byte and never normalised. Contracts see
/// the list of texts and models, in the byte order of the texts.
#[derive(Drop)]
pub struct Library {
    alloc: Global,
    models: BTreeMap<String, Tree>,
}

impl Model for Library {
    ghost use Rattle.std.specs.Prelude.{List, ℕ};
    ghost use Rattle.wot_json.specs.JsonCodes.{members_code};
    ghost use Rattle.wot_json.specs.Tree.{Json};

    ghost Value = { List (List ℕ × Json) };

    ghost coded = { members_code };

    ghost use Rattle.tm_parts.specs.Kept.{kept_models};

    ghost view = { λ l. kept_models l.models.entries };
}

impl Library {
    /// A library without models.
    pub fn new(alloc: Global) -> Self
        ensures { result ≡ [] }
    {
        Library {
            alloc,
            models: BTreeMap::new(alloc),
        }
    }

    /// Puts a model under the text of its URL. Where that isn't done the model is given up. Its time is in
    /// proportion to the text, and to the logarithm of the number of models.
    pub fn add(&mut self, url: &str, model: Tree) -> Result<(), AddFault>
        ensures ok { OnOk result (self.new ≡ with_model url.now (json_of model) self.old) }
        ensures models { OnOk result ((name : List ℕ) → member_named name self.new
            ≡ (if bytes_eq name url.now then Some (json_of model) else member_named name self.old)) }
        ensures allowed { OnOk result (MayAdd url.now (json_of model) self.old) }
        ensures unchanged { OnErr result (self.new ≡ self.old) }
        ensures fault { IfErr result (λ e. HasAddFault e url.now (json_of model) self.old) }
    {
        self.judge(url, &model)?;
        self.keep(url, model)
    }

    /// Judges whether a model may be put under the text of a URL.
    fn judge(&self, url: &str, model: &Tree) -> Result<(), AddFault>
        ensures ok { OnOk result (MayAdd url.now (json_of model.now) self.now) }
        ensures fault { IfErr result (λ e. HasAddFault e url.now (json_of model.now) self.now) }
    {
        judge_url(self.alloc, url)?;
        if self.models.contains_key(url) {
            return Err(AddFault::Twice);
        }
        if !is_thing_model(model) {
            return Err(AddFault::NotModel);
        }
        Ok(())
    }

    /// Puts a model under the text of its URL.
    fn keep(&mut self, url: &str, model: Tree) -> Result<(), AddFault>
        ensures ok { OnOk result (self.new ≡ with_model url.now (json_of model) self.old) }
        ensures unchanged { OnErr result (self.new ≡ self.old) }
        ensures fault { IfErr result (λ e. e ≡ AddFault.NoMemory) }
    {
        let key = String::from_str(self.alloc, url)?;
        match self.models.insert(key, model) {
            Ok(_) => Ok(()),
            Err(_) => Err(AddFault::NoMemory),
        }
    }

    /// The model under the text of a URL.
    pub fn get(&self, url: &str) -> Option<&Tree>
        ensures { option_map (λ t. json_of t.now) result ≡ member_named url.now self.now }
    {
        self.models.get(url)
    }

    /// All models by the texts of their URLs.
    pub(crate) fn entries(&self) -> &BTreeMap<String, Tree>
        ensures { kept_models result.now.entries ≡ self.now }
    {
        &self.models
    }
}

/// Judges whether a text may name a model.
fn judge_url(alloc: Global, url: &str) -> Result<(), AddFault>
    ensures ok { OnOk result (IsModelUrl url.now) }
    ensures fault { IfErr result (λ e. (e ≡ AddFault.NoMemory) ⊎ ((e ≡ AddFault.BadUrl) × IsNoModelUrl url.now)) }
{
    match Url::parse(alloc, url) {
        Ok(url) if url.fragment().is_none() => Ok(()),
        Err(ParseError::Overflow | ParseError::OutOfMemory) => Err(AddFault::NoMemory),
        _ => Err(AddFault::BadUrl),
    }
}

/// The tree is an object whose `@type` has `tm:ThingModel`.
fn is_thing_model(tree: &Tree) -> bool
    ensures { result ≡ spec.is_thing_model (json_of tree.now) }
{
    match tree {
        Tree::Obj(members) => match members.get("@type") {
            Some(types) => has_text(types, THING_MODEL),
            None => false,
        },
        _ => false,
    }
}
