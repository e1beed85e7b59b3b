//! The forms of an affordance over each protocol.

ghost use Rattle.std.specs.Prelude.{◌≡◌, ◌++◌, [], ◌∷◌, IfOk, OnOk};
ghost use Rattle.wot_json.specs.Meaning.{json_of};
ghost use Rattle.wot_terms.specs.declared.kind.Kind.TheVariants as kind;
ghost use Rattle.wot_forms.specs.Generated.{generated_forms as generated_forms_of, affordance_path, base_of, protocol_forms, subscribe_form};

use crate::Bases;
use crate::bases::Protocol;
use crate::form_values::{form, push_plain_form};
use crate::ops::fixed_ops;
use crate::urls::{affordance_url, extended_url, is_coap_segment};
use std::alloc::Global;
use wot_json::{Items, NoMemory, Tree};
use wot_terms::{Kind, Op, flag};

/// The operations of a form for observing.
const OBSERVING: &[Op] = &[Op::ObserveProperty, Op::UnobserveProperty];

/// The address at which a Thing is served.
#[derive(Drop)]
pub(crate) struct Address<'a> {
    pub(crate) bases: &'a Bases,
    /// The first segment of its paths.
    pub(crate) segment: &'a str,
}

/// An affordance of a description.
#[derive(Drop)]
pub(crate) struct NamedAffordance<'a> {
    pub(crate) kind: Kind,
    pub(crate) name: &'a str,
    pub(crate) value: &'a Tree,
}

/// The forms of an affordance.
pub(crate) fn generated_forms(
    alloc: Global,
    at: &Address<'_>,
    affordance: &NamedAffordance<'_>,
) -> Result<Items, NoMemory>
    ensures { IfOk result (λ forms. forms ≡ generated_forms_of at.now.bases.now at.now.segment.now
        affordance.now.kind affordance.now.name.now (json_of affordance.now.value.now)) }
{
    let mut forms = Items::new(alloc);
    push_forms(alloc, at, Protocol::Http, affordance, &mut forms)?;
    if is_coap_segment(affordance.name) {
        push_forms(alloc, at, Protocol::Coap, affordance, &mut forms)?;
    }
    Ok(forms)
}

/// Puts the forms of an affordance for one protocol at the end.
fn push_forms(
    alloc: Global,
    at: &Address<'_>,
    protocol: Protocol,
    affordance: &NamedAffordance<'_>,
    forms: &mut Items,
) -> Result<(), NoMemory>
    ensures { OnOk result (forms.new ≡ forms.old
        ++ protocol_forms protocol affordance.now.kind (json_of affordance.now.value.now)
        (affordance_path (base_of at.now.bases.now protocol) at.now.segment.now affordance.now.kind affordance.now.name.now)) }
{
    let base = protocol.base(at.bases);
    let url = affordance_url(alloc, base, at.segment, affordance.kind, affordance.name)?;
    match affordance.kind {
        Kind::Property => {
            push_property_forms(alloc, protocol, affordance.value, url.as_str(), forms)
        }
        Kind::Action => {
            let ops = fixed_ops(Kind::Action, false, false);
            push_plain_form(alloc, url.as_str(), ops, forms)
        }
        Kind::Event => push_event_form(alloc, protocol, url.as_str(), forms),
    }
}

/// Puts the forms of a property at the end.
fn push_property_forms(
    alloc: Global,
    protocol: Protocol,
    property: &Tree,
    url: &str,
    forms: &mut Items,
) -> Result<(), NoMemory>
    ensures { OnOk result (forms.new
        ≡ forms.old ++ protocol_forms protocol kind.Property (json_of property.now) url.now) }
{
    let read_only = flag(property, "readOnly");
    let write_only = flag(property, "writeOnly");
    let ops = fixed_ops(Kind::Property, read_only, write_only);
    push_plain_form(alloc, url, ops, forms)?;
    if flag(property, "observable") {
        let url = extended_url(alloc, url, protocol.observe_path())?;
        let observing = form(alloc, url, OBSERVING, Some(protocol.subprotocol()))?;
        forms.push(observing)?;
    }
    Ok(())
}

/// Puts the form of an event at the end.
fn push_event_form(
    alloc: Global,
    protocol: Protocol,
    url: &str,
    forms: &mut Items,
) -> Result<(), NoMemory>
    ensures { OnOk result (forms.new ≡ forms.old ++ subscribe_form protocol url.now ∷ []) }
{
    let ops = fixed_ops(Kind::Event, false, false);
    let url = extended_url(alloc, url, protocol.subscribe_path())?;
    let subscribing = form(alloc, url, ops, Some(protocol.subprotocol()))?;
    forms.push(subscribing)
}
