//! The choice of a form.

ghost use Rattle.std.specs.Prelude.{◌≡◌, ◌↔◌, Some, None, Contains, IfOk, IfErr, IsTrue, MatchOption, option_map, unwrap_or};
ghost use Rattle.std.specs.Option.{option_copied};
ghost use Rattle.url.specs.Parts.{nonempty_host};
ghost use Rattle.url.specs.Host.{host_text};
ghost use Rattle.wot_json.specs.Meaning.{json_of};
ghost use Rattle.wot_terms.specs.Faults.{IsValid};
ghost use Rattle.wot_consumer.specs.Operations.{is_consumed, is_observing as observes, verb_of as verb_for};
ghost use Rattle.wot_consumer.specs.Places.{scheme_named as scheme_of, default_port as port_by_default};
ghost use Rattle.wot_consumer.specs.Judgement.{HasAffordance};
ghost use Rattle.wot_consumer.specs.Choice as spec;

use crate::operations::{is_observing, kind_of, verb_of};
use crate::places::{are_sendable, default_port, scheme_named, segments_of};
use crate::wanted::SoughtForm;
use crate::{ChooseFault, Chosen};
use servient_base::{NoMemory, join};
use std::alloc::Global;
use thing_ops::Verb;
use url::Url;
use wot_forms::{Form, Scheme, forms_of};
use wot_json::{Text, Tree};
use wot_terms::Op;

/// The media type of what is sent and received.
pub(crate) const JSON: &str = "application/json";

/// The first form by which an operation of a consumer can be done with the affordance of this name, and what is asked
/// there: the form has the operation and the media type `application/json`, for observing the subprotocol `cov:observe`
/// and else none, and its URL has the wanted scheme, or `http` or `coap` where none is wanted, and a host, but no query.
/// Observing is over CoAP alone. For reading all properties the name says nothing.
///
/// The time is in proportion to the size of the forms and of the base, which is read again for each form.
pub fn choose(
    alloc: Global,
    tree: &Tree,
    op: Op,
    name: &str,
    scheme: Option<Scheme>,
) -> Result<Chosen, ChooseFault>
    requires valid { IsValid (json_of tree.now) }
    requires consumed { IsTrue (is_consumed op) }
    ensures ok { IfOk result (λ c. spec.IsChosen (json_of tree.now) (spec.wanted op scheme) name.now c) }
    // So the values of what is chosen can be judged.
    ensures affordance { IfOk result (λ c. HasAffordance (json_of tree.now) op name.now) }
    ensures fault { IfErr result (λ f. spec.IsNoChoice (json_of tree.now) (spec.wanted op scheme) name.now f) }
{
    let wanted = SoughtForm { op, scheme };
    match forms_of(alloc, tree, kind_of(op), name)? {
        None => Err(ChooseFault::NoAffordance),
        Some(forms) => first(alloc, wanted, base_of(tree), forms.as_slice()),
    }
}

/// The base to which the URLs of a description are joined.
fn base_of(tree: &Tree) -> Option<&str>
    ensures { option_copied result ≡ spec.base_of (json_of tree.now) }
{
    match tree.member("base") {
        Some(Tree::Text(base)) => Some(base.as_str()),
        _ => None,
    }
}

/// The choice by the first form that qualifies.
fn first(
    alloc: Global,
    wanted: SoughtForm,
    base: Option<&str>,
    forms: &[Form],
) -> Result<Chosen, ChooseFault>
    ensures ok { IfOk result (λ c. spec.IsFirst wanted (option_copied base.entry) forms.now (Some c)) }
    ensures fault { IfErr result (λ f. spec.IsNoForm wanted (option_copied base.entry) forms.now f) }
{
    for form in forms {
        if let Some(chosen) = chosen_by(alloc, wanted, base, form)? {
            return Ok(chosen);
        }
    }
    Err(ChooseFault::NoForm)
}

/// The choice by a form, where it qualifies.
fn chosen_by(
    alloc: Global,
    wanted: SoughtForm,
    base: Option<&str>,
    form: &Form,
) -> Result<Option<Chosen>, NoMemory>
    ensures { IfOk result (λ o. MatchOption o (spec.IsPassedOver wanted (option_copied base.entry) form.now)
        (λ c. spec.Qualifies wanted (option_copied base.entry) form.now c)) }
{
    if !fits(wanted, form) {
        return Ok(None);
    }
    match join(alloc, base, form.href.as_str())? {
        None => Ok(None),
        Some(url) => chosen_at(alloc, wanted, verb_by(wanted.op, form), &url),
    }
}

/// The form fits by its own members.
fn fits(wanted: SoughtForm, form: &Form) -> bool
    ensures { IsTrue result ↔ spec.Fits wanted form.now }
{
    has_operation(form.ops.as_slice(), wanted.op)
        && form.content_type.as_str() == JSON
        && is_subprotocol_for(wanted.op, form.subprotocol.as_ref())
}

/// The operation is one of these.
fn has_operation(ops: &[Op], op: Op) -> bool
    ensures { IsTrue result ↔ Contains ops.now op }
{
    ops.contains(&op)
}

/// The subprotocol is that of a form which is used for this operation.
fn is_subprotocol_for(op: Op, subprotocol: Option<&Text>) -> bool
    ensures { IsTrue result ↔ (option_map (λ t. t.now) subprotocol.entry ≡ spec.subprotocol_for op) }
{
    match subprotocol {
        Some(subprotocol) => is_observing(op) && subprotocol.as_str() == "cov:observe",
        None => !is_observing(op),
    }
}

/// The method by which an operation is asked for at a form.
fn verb_by(op: Op, form: &Form) -> Verb
    ensures { result ≡ verb_for op form.now.method }
{
    match &form.method {
        Some(method) => verb_of(op, Some(method.as_str())),
        None => verb_of(op, None),
    }
}

/// The choice at a URL, where it leads to something that may be used.
fn chosen_at(
    alloc: Global,
    wanted: SoughtForm,
    verb: Verb,
    url: &Url,
) -> Result<Option<Chosen>, NoMemory>
    ensures { IfOk result (λ o. MatchOption o (spec.LeadsNowhere wanted url.now) (λ c. spec.LeadsTo wanted url.now c
        × (c.verb ≡ verb) × (c.observe ≡ observes wanted.op))) }
{
    let scheme = match usable_scheme(wanted, url.scheme()) {
        Some(scheme) => scheme,
        None => return Ok(None),
    };
    let host = match host_of(url) {
        Some(host) => host,
        None => return Ok(None),
    };
    let path = segments_of(alloc, url.path())?;
    if !are_sendable(scheme, &path) {
        return Ok(None);
    }
    Ok(Some(Chosen {
        scheme,
        host: Text::copy_of(alloc, host)?,
        port: port_of(scheme, url),
        path,
        verb,
        observe: is_observing(wanted.op),
    }))
}

/// The scheme of this name, where it may be used.
fn usable_scheme(wanted: SoughtForm, name: &str) -> Option<Scheme>
    ensures { MatchOption result ((s : Scheme) → scheme_of name.now ≡ Some s → ¬ (spec.IsWanted wanted s))
        (λ s. (scheme_of name.now ≡ Some s) × spec.IsWanted wanted s) }
{
    match scheme_named(name) {
        Some(scheme) => {
            if is_wanted(wanted, scheme) {
                Some(scheme)
            } else {
                None
            }
        }
        None => None,
    }
}

/// The scheme may be used.
fn is_wanted(wanted: SoughtForm, scheme: Scheme) -> bool
    ensures { IsTrue result ↔ spec.IsWanted wanted scheme }
{
    match wanted.scheme {
        Some(only) => only == scheme && is_over(wanted.op, scheme),
        None => is_over(wanted.op, scheme),
    }
}

/// The operation is done over this protocol.
fn is_over(op: Op, scheme: Scheme) -> bool
    ensures { result ≡ spec.is_over op scheme }
{
    match scheme {
        Scheme::Http => !is_observing(op),
        Scheme::Coap => true,
    }
}

/// The host of a URL that has no query.
fn host_of(url: &Url) -> Option<&str>
    ensures { MatchOption result ((url.now.query ≡ None) → nonempty_host url.now ≡ None)
        (λ host. (url.now.query ≡ None) × (option_map host_text (nonempty_host url.now) ≡ Some host.now)) }
{
    match url.query() {
        Some(_) => None,
        None => url.host_str(),
    }
}

/// The port of a URL of this scheme.
fn port_of(scheme: Scheme, url: &Url) -> u16
    ensures { result ≡ unwrap_or url.now.port (port_by_default scheme) }
{
    match url.port() {
        Some(port) => port,
        None => default_port(scheme),
    }
}
