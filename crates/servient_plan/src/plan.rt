//! The plan of a servient: the Things that it exposes, where, and with which handlers.

ghost use Rattle.std.specs.Prelude.{◌≡◌, ◌⊎◌, ◌++◌, ◌∷◌, [], true, codes, IfOk, OnErr, OnOk};
ghost use Rattle.wot_json.specs.Meaning.{json_of};
ghost use Rattle.wot_json.specs.Merge.{members_under};
ghost use Rattle.servient_plan.specs.Plan.{plan_of, place_of, Reads, MayBeServed};
ghost use Rattle.servient_plan.specs.Plan as spec;
ghost use Rattle.wot_forms.specs.Segments.{is_plain_segment};

use crate::listening::{has_listen, listen_row};
use crate::texts::{TextRow, base_point};
use crate::unknown::unknown_in;
use crate::values::{
    bindings_row, choices_row, epoch_row, exchanges_row, instance_row, models_row, slots_row,
    text_row, versions_row,
};
use servient_outside::Place;
use std::alloc::{AllocError, Global};
use std::marker::Model;
use thing_site::Slots;
use thiserror::Error;
use tm_parts::{Bindings, Choices};
use wot_forms::{Bases, Frame};
use wot_json::{NoMemory, Text, Tree};

/// A plan (docs/REFERENCE.md, "The plan").
#[derive(Debug, Drop)]
pub struct Plan {
    /// The segment and the `id` of the root Thing, the beginnings of its URLs, and the `instance` of its version: just
    /// as `derive` takes them.
    pub frame: Frame,
    /// The text of the URL of the root's model.
    pub root: Text,
    /// The models and their files.
    pub models: ModelFiles,
    /// The values to which placeholders are bound.
    pub bindings: Bindings,
    /// The optional affordances that are chosen.
    pub choices: Choices,
    /// The slots of the handlers, as exposing takes them.
    pub slots: Slots,
    /// The number of CoAP exchanges that may live at a time.
    pub exchanges: u32,
    /// The moment at which the clock began, in milliseconds after the start of 1970, where the plan says so.
    pub epoch: Option<u64>,
    /// Versions of properties up to this one are left out, since an earlier run may have sent them as tags.
    pub versions: u32,
    /// The bases at which the servient listens, where descriptions and links say others than these.
    pub listen: Option<Bases>,
    /// The names of the members of the object that no plan has.
    pub unknown: UnknownMembers,
}

/// The first rows of the table: the names of the root Thing, the bases at which it is served, and the URL of its model.
#[derive(Drop)]
struct Names {
    segment: Text,
    id: Text,
    bases: Bases,
    root: Text,
}

/// The lists from which the Things are derived, besides the root's model.
#[derive(Drop)]
struct Lists {
    models: ModelFiles,
    bindings: Bindings,
    choices: Choices,
}

/// Models, each by the text of its URL and the name of its file. Contracts see the list of both.
#[derive(Debug, Drop)]
pub struct ModelFiles {
    list: Vec<(Text, Text)>,
}

impl Model for ModelFiles {
    ghost use Rattle.std.specs.Prelude.{List, ℕ};

    ghost Value = { List (List ℕ × List ℕ) };

    ghost view = { λ m. m.list.items };
}

impl ModelFiles {
    /// The models of a vector, which is taken over as it is.
    pub(crate) fn from_vec(list: Vec<(Text, Text)>) -> Self
        ensures { result ≡ list.items }
    {
        ModelFiles { list }
    }

    /// The URLs and file names.
    pub fn as_slice(&self) -> &[(Text, Text)]
        ensures { result.now ≡ self.now }
    {
        self.list.as_slice()
    }
}

/// The names of members of a plan that its definition doesn't know, in their order. Contracts see the list of them.
#[derive(Debug, Drop)]
pub struct UnknownMembers {
    list: Vec<Text>,
}

impl Model for UnknownMembers {
    ghost use Rattle.std.specs.Prelude.{List, ℕ};

    ghost Value = { List (List ℕ) };

    ghost view = { λ m. m.list.items };
}

impl UnknownMembers {
    /// No members.
    pub(crate) fn new(alloc: Global) -> Self
        ensures { result ≡ [] }
    {
        UnknownMembers {
            list: Vec::new(alloc),
        }
    }

    /// Puts a name at the end.
    pub(crate) fn push(&mut self, name: Text) -> Result<(), NoMemory>
        ensures { OnOk result (self.new ≡ self.old ++ name ∷ []) }
    {
        self.list.push(name)?;
        Ok(())
    }

    /// The names.
    pub fn as_slice(&self) -> &[Text]
        ensures { result.now ≡ self.now }
    {
        self.list.as_slice()
    }
}

/// The cause for which a tree is no plan.
#[derive(Debug, Drop, Error)]
pub enum PlanFault {
    /// The pointer to the first member that isn't as a plan has it, in the order of the table in docs/REFERENCE.md; the
    /// empty one where the tree is no object.
    #[error("the plan is not as it must be at {0:?}")]
    At(Text),
    /// Out of memory.
    #[error("out of memory")]
    NoMemory,
}

impl From<AllocError> for PlanFault {
    ghost use Rattle.std.specs.Prelude.{◌≡◌};
    ghost use Rattle.servient_plan.specs.declared.plan.PlanFault.TheVariants.{NoMemory};

    ghost from_gives = { λ _ fault. fault ≡ NoMemory };

    fn from(_error: AllocError) -> PlanFault {
        PlanFault::NoMemory
    }
}

impl PlanFault {
    /// The fault of a member of this name that isn't as a plan has it.
    pub(crate) fn of_member(alloc: Global, name: &str) -> PlanFault
        ensures { (result ≡ PlanFault.NoMemory) ⊎ (result ≡ PlanFault.At (codes "/" ++ name.now)) }
    {
        match member_pointer(alloc, name) {
            Ok(pointer) => PlanFault::At(pointer),
            Err(_) => PlanFault::NoMemory,
        }
    }
}

/// The pointer to the member of this name, which has no byte that is escaped.
fn member_pointer(alloc: Global, name: &str) -> Result<Text, NoMemory>
    ensures { IfOk result (λ pointer. pointer ≡ codes "/" ++ name.now) }
{
    let mut pointer = String::from_str(alloc, "/")?;
    pointer.push_str(name)?;
    Ok(Text::from_string(pointer))
}

/// The tree is an object.
fn is_object(tree: &Tree) -> bool
    ensures { result ≡ spec.is_object (json_of tree.now) }
{
    matches!(tree, Tree::Obj(_))
}

impl Plan {
    /// The plan that a tree is. Of members that a plan doesn't have it keeps the names alone.
    #[tactic(auto, using(crate::proofs::PlanLaws::refused_there, crate::proofs::PlanLaws::goes_on_there))]
    pub fn read(alloc: Global, tree: &Tree) -> Result<Plan, PlanFault>
        ensures reads { Reads result (plan_of (json_of tree.now)) }
        ensures served { IfOk result MayBeServed }
    {
        if !is_object(tree) {
            return Err(PlanFault::At(Text::copy_of(alloc, "")?));
        }
        let names = names_in(alloc, tree)?;
        let lists = lists_in(alloc, tree)?;
        let instance = instance_row(alloc, tree)?;
        let slots = slots_row(alloc, tree)?;
        let exchanges = exchanges_row(alloc, tree)?;
        let epoch = epoch_row(alloc, tree)?;
        let versions = versions_row(alloc, tree)?;
        let listen = listen_row(alloc, tree)?;
        let unknown = unknown_in(alloc, tree)?;
        let frame = Frame {
            segment: names.segment,
            id: names.id,
            bases: names.bases,
            instance,
        };
        Ok(Plan {
            frame,
            root: names.root,
            models: lists.models,
            bindings: lists.bindings,
            choices: lists.choices,
            slots,
            exchanges,
            epoch,
            versions,
            listen,
            unknown,
        })
    }

    /// The bases at which a servient of this plan listens.
    fn listened_at(&self) -> &Bases
        ensures { result.now ≡ spec.listened_at self.now }
    {
        match &self.listen {
            Some(bases) => bases,
            None => &self.frame.bases,
        }
    }

    /// The place where a servient of this plan listens, until `idle` milliseconds pass without traffic.
    pub fn place(&self, alloc: Global, idle: u64) -> Result<Place, NoMemory>
        ensures { IfOk result (λ place. place ≡ place_of self.now idle) }
    {
        let bases = self.listened_at();
        let (http_host, http_port) = point_of("http://", bases.http.as_str());
        let (coap_host, coap_port) = point_of("coap://", bases.coap.as_str());
        Ok(Place {
            http_host: Text::copy_of(alloc, http_host)?,
            http_port,
            coap_host: Text::copy_of(alloc, coap_host)?,
            coap_port,
            idle,
        })
    }
}

/// The texts of a plan that its first rows read.
#[tactic(auto, using(crate::proofs::PlanLaws::refused_there, crate::proofs::PlanLaws::goes_on_there))]
fn names_in(alloc: Global, tree: &Tree) -> Result<Names, PlanFault>
    ensures reads { Reads result (spec.names_in (members_under (json_of tree.now))) }
    ensures segment { IfOk result (λ names. is_plain_segment names.segment ≡ true) }
{
    let segment = text_row(alloc, tree, TextRow::Name)?;
    let id = text_row(alloc, tree, TextRow::Id)?;
    let listens = has_listen(tree);
    let http = text_row(alloc, tree, TextRow::http(listens))?;
    let coap = text_row(alloc, tree, TextRow::coap(listens))?;
    let root = text_row(alloc, tree, TextRow::Root)?;
    let bases = Bases { http, coap };
    Ok(Names {
        segment,
        id,
        bases,
        root,
    })
}

/// The lists of a plan from which its Things are derived.
#[tactic(auto, using(crate::proofs::PlanLaws::refused_there, crate::proofs::PlanLaws::goes_on_there))]
fn lists_in(alloc: Global, tree: &Tree) -> Result<Lists, PlanFault>
    ensures { Reads result (spec.lists_in (members_under (json_of tree.now))) }
{
    let models = models_row(alloc, tree)?;
    let bindings = bindings_row(alloc, tree)?;
    let choices = choices_row(alloc, tree)?;
    Ok(Lists {
        models,
        bindings,
        choices,
    })
}

/// The host and the port of a base; none and 0 where it has none, which no plan that was read has.
fn point_of<'a>(scheme: &str, base: &'a str) -> (&'a str, u16)
    ensures { spec.point_of scheme.now base.now ≡ (result.0.now, result.1) }
{
    match base_point(scheme, base) {
        Some(point) => point,
        None => ("", 0),
    }
}
