//! The links of a model that count, as derivation asks for them.

ghost use Rattle.std.specs.Prelude.{◌≡◌, IfOk, option_map};
ghost use Rattle.wot_json.specs.Lookup.{member_named};
ghost use Rattle.wot_json.specs.Meaning.{json_of};
ghost use Rattle.wot_json.specs.Merge.{members_under};
ghost use Rattle.tm_parts.specs.Views.{seen};
ghost use Rattle.tm_resolve.specs.Links.{linked_model};
ghost use Rattle.tm_resolve.specs.ModelLinks.{relation_text, kept_link, kept_links, links_of, model_link as link_seen};

use crate::links::{EXTENDS, SUBMODEL, is_link, link_target, links_under};
use crate::sources::Part;
use servient_base::NoMemory;
use std::alloc::Global;
use tm_parts::{Location, View};
use wot_json::{Text, Tree};

/// The relation of a link that counts.
#[derive(Debug, Clone, Copy, PartialEq, Eq)]
pub enum Relation {
    /// To the model that a model extends.
    Extends,
    /// To a submodel.
    Submodel,
}

impl Relation {
    /// The relation as it is written.
    pub(crate) fn text(self) -> &'static str
        ensures { result.now ≡ relation_text self }
    {
        match self {
            Relation::Extends => EXTENDS,
            Relation::Submodel => SUBMODEL,
        }
    }
}

/// A link of a model that counts.
#[derive(Debug, Drop)]
pub struct CountedLink {
    /// Its index among all links of the model, from 0.
    pub index: usize,
    /// The URL of the model that it leads to, without a fragment. None where `href` is no text or can't be joined to
    /// the URL of the model.
    pub target: Option<Text>,
    /// The value of `instanceName`, where the link has it.
    pub instance_name: Option<Tree>,
}

/// The links of a whole model with this relation that count, in their order.
pub(crate) fn model_links(
    alloc: Global,
    whole: Part<'_>,
    relation: &str,
) -> Result<Vec<CountedLink>, NoMemory>
    ensures { IfOk result (λ links. kept_links links.items ≡ links_of relation.now whole.entry.from.now (seen whole.entry.view)) }
{
    let list = links_under(whole.view);
    let items = list.items;
    let mut links = Vec::new(alloc);
    for (index, tree) in items.iter().enumerate() {
        let link = View {
            tree,
            values: list.values,
        };
        if is_link(link, relation) {
            let link = model_link(alloc, whole.from, index, link)?;
            links.push(link)?;
        }
    }
    Ok(links)
}

/// A link of the model at a location, at this index.
fn model_link(
    alloc: Global,
    from: &Location,
    index: usize,
    link: View<'_>,
) -> Result<CountedLink, NoMemory>
    ensures { IfOk result (λ l. kept_link l ≡ link_seen from.now (index, seen link.entry)) }
{
    Ok(CountedLink {
        index,
        target: target_url(alloc, from, link)?,
        instance_name: built_member(alloc, link, "instanceName")?,
    })
}

/// The URL of the model that a link leads to, where it leads to one.
fn target_url(alloc: Global, from: &Location, link: View<'_>) -> Result<Option<Text>, NoMemory>
    ensures { IfOk result (λ target. target ≡ option_map (λ model. model.url) (linked_model from.now (seen link.entry))) }
{
    match link_target(alloc, from, link)? {
        None => Ok(None),
        Some(model) => Ok(Some(model.url)),
    }
}

/// The value of a member, built, where there is one.
pub(crate) fn built_member(
    alloc: Global,
    value: View<'_>,
    name: &str,
) -> Result<Option<Tree>, NoMemory>
    ensures { IfOk result (λ member. option_map json_of member ≡ member_named name.now (members_under (seen value.entry))) }
{
    match value.member(name) {
        None => Ok(None),
        Some(member) => Ok(Some(member.build(alloc)?)),
    }
}
