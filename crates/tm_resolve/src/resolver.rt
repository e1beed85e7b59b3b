//! The values of whole Thing Models.

ghost use Rattle.std.specs.Prelude.{◌≡◌, ◌⊎◌, Ok, Err, IfOk, IfErr, IfSome, option_map};
ghost use Rattle.wot_json.specs.Meaning.{json_of};
ghost use Rattle.tm_parts.specs.Sources.{sources_of};
ghost use Rattle.tm_parts.specs.Views.{seen};
ghost use Rattle.tm_resolve.specs.Resolution.{resolved_from, resolved_model};

use crate::fault::{ResolveFault, ResolveKind};
use crate::model_links::{CountedLink, Relation, built_member, model_links};
use crate::sources::{Part, StepSources};
use crate::walk::target_value;
use crate::weight::is_too_large;
use servient_base::NoMemory;
use std::alloc::Global;
use tm_parts::{Bindings, Library, Reference};
use wot_json::{Text, Tree};

/// The models of a library with values in the places of their placeholders, prepared once for all that is asked of
/// them, because a derivation asks for many. It has no Model, because some of the models are faults. Contracts see the
/// models by their URLs, each with its values or with the first fault of the substitution.
#[derive(Drop)]
pub struct Resolver<'a> {
    sources: StepSources<'a>,
}

impl<'a> Resolver<'a> {
    ghost use Rattle.tm_resolve.specs.Resolver.{resolver_models};
    ghost use Rattle.tm_resolve.specs.ModelLinks.{relation_text, kept_links, optional_part, model_links as links_under_url, whole_model as whole_model_under};

    /// Judges each model of the library with the values, parses its URL, and puts the bindings in order, all once. No
    /// value is put in.
    pub fn new(
        alloc: Global,
        library: &'a Library,
        bindings: &'a Bindings,
    ) -> Result<Self, NoMemory>
        ensures { IfOk result (λ r. resolver_models r ≡ sources_of library.now bindings.now) }
    {
        Ok(Resolver {
            sources: StepSources {
                alloc,
                models: tm_parts::Sources::new(alloc, library, bindings)?,
            },
        })
    }

    /// The value of the model under the URL `root`, or the first fault.
    ///
    /// Each model has values in the places of its placeholders before anything in it is looked at; a fault of that
    /// comes alone. A model with one link `tm:extends` is a merge patch (RFC 7396) on the model that the link leads to,
    /// which comes with its own extension and without its links. An object with `tm:ref` is one on the part that
    /// `tm:ref` refers to, with its own references brought in first. A step back to a part on the way to it is
    /// circular; a part that is brought in twice side by side is not.
    ///
    /// `TooLarge` comes before all other faults, at the root and with the empty pointer: the model with all that it
    /// brings in, and its submodels, weighs more than 262,144, is deeper than 64, or has a chain of more than 16 models
    /// and parts. The order of the others is preorder: those of an extension before those of the model, those of a
    /// `tm:ref` before those of the members beside it, and members in the byte order of their names. Of what comes
    /// after the first fault nothing is looked at.
    ///
    /// Counting reads each node that it visits once, builds none, and stops where a limit is passed. For each step it
    /// joins a text to the URL of a model, and finds a model by binary search. A value is built only where it isn't too
    /// large; a part that is brought in twice is made twice, and merged again at each step that brings it in.
    pub fn resolve(&self, root: &str) -> Result<Tree, ResolveFault>
        ensures ok { IfOk result (λ t. resolved_from (resolver_models self.now) root.now ≡ Ok (json_of t)) }
        ensures fault { IfErr result (λ e. (e ≡ ResolveFault.NoMemory)
            ⊎ (resolved_from (resolver_models self.now) root.now ≡ Err e)) }
    {
        let sources = &self.sources;
        let target = Reference {
            url: Text::copy_of(sources.alloc, root)?,
            pointer: Text::copy_of(sources.alloc, "")?,
        };
        if is_too_large(sources, &target)? {
            return Err(ResolveFault::at(sources.alloc, ResolveKind::TooLarge, root, ""));
        }
        let mut chain = Vec::new(sources.alloc);
        target_value(sources, root, &[], &target, &mut chain)
    }

    /// The links with this relation of the model under the URL that count, in their order: objects in its list `links`
    /// without `tm:ref`. There are none where the library doesn't have the model or its substitution has a fault,
    /// because `resolve` reports that.
    pub fn links(&self, url: &str, relation: Relation) -> Result<Vec<CountedLink>, NoMemory>
        ensures { IfOk result (λ links. kept_links links.items
            ≡ links_under_url (resolver_models self.now) url.now (relation_text relation)) }
    {
        match self.whole_model(url) {
            None => Ok(Vec::new(self.sources.alloc)),
            Some(whole) => model_links(self.sources.alloc, whole, relation.text()),
        }
    }

    /// The `tm:optional` of the model under the URL. None where it has none, where the library doesn't have the model,
    /// or where its substitution has a fault.
    pub fn optional(&self, url: &str) -> Result<Option<Tree>, NoMemory>
        ensures { IfOk result (λ part. option_map json_of part ≡ optional_part (resolver_models self.now) url.now) }
    {
        match self.whole_model(url) {
            None => Ok(None),
            Some(whole) => built_member(self.sources.alloc, whole.view, "tm:optional"),
        }
    }

    /// The model under the URL with its values, where there is one and its substitution has no fault.
    fn whole_model(&self, url: &str) -> Option<Part<'_>>
        ensures model { option_map (λ whole. seen whole.view) result ≡ whole_model_under (resolver_models self.now) url.now }
        ensures from { IfSome result (λ whole. whole.from.now ≡ url.now) }
    {
        let source = match self.sources.models.get(url) {
            Some(source) => source,
            None => return None,
        };
        match source.model {
            Ok(view) => Some(Part {
                from: source.location,
                view,
            }),
            Err(_) => None,
        }
    }
}

/// The value of one model of a library, or the first fault: a `Resolver` is made, and asked for it.
pub fn resolve(
    alloc: Global,
    library: &Library,
    root: &str,
    bindings: &Bindings,
) -> Result<Tree, ResolveFault>
    ensures ok { IfOk result (λ t. resolved_model library.now bindings.now root.now ≡ Ok (json_of t)) }
    ensures fault { IfErr result (λ e. (e ≡ ResolveFault.NoMemory) ⊎ (resolved_model library.now bindings.now root.now ≡ Err e)) }
{
    let resolver = Resolver::new(alloc, library, bindings)?;
    resolver.resolve(root)
}
