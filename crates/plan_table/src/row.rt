//! The rows of the table, one for each affordance.

ghost use Rattle.std.specs.Prelude.{◌≡◌, ◌++◌, ◌∷◌, [], find, codes, option_and_then, option_map, slice_get, IfOk, OnOk};
ghost use Rattle.std.specs.List.{AllByRecursion};
ghost use Rattle.wot_json.specs.Meaning.{json_of};
ghost use Rattle.wot_terms.specs.Faults.{IsValid};
ghost use Rattle.wot_terms.specs.ThingLists.{kept_thing, kept_things};
ghost use Rattle.thing_site.specs.Exposing.{kinds_of};
ghost use Rattle.plan_table.specs.Table as table;

use servient_base::NoMemory;
use std::alloc::Global;
use thing_handler::Handlers;
use thing_site::{Slots, handler_at, is_kind, pointer_of};
use wot_forms::{Form, forms_of};
use wot_json::Text;
use wot_terms::{Affordance, Description, Kind, Thing};

/// What a plan gives an affordance of a Thing.
#[derive(Debug, Drop)]
pub struct Row {
    /// The segment of the Thing.
    pub segment: Text,
    pub kind: Kind,
    pub name: Text,
    /// The pointer to the affordance in the Thing's description.
    pub pointer: Text,
    /// The slot of the first entry for it.
    pub slot: Option<usize>,
    /// The kind of the handler that the rack has there.
    pub handler: Option<Kind>,
    /// It is a property that can be observed.
    pub observable: bool,
    /// The first `href` of its forms over HTTP.
    pub http: Option<Text>,
    /// The first `href` of its forms over CoAP.
    pub coap: Option<Text>,
}

/// The rows of the affordances of Things, in order.
pub(crate) fn rows_of<R: Handlers>(
    alloc: Global,
    slots: &Slots,
    things: &[Thing],
    rack: &R,
) -> Result<Vec<Row>, NoMemory>
    requires { AllByRecursion (λ t. IsValid (json_of t.tree)) things.now }
    ensures { IfOk result (λ rows. rows.items ≡ table.rows_of slots.now (kinds_of (R.slots rack.now)) (kept_things things.now)) }
{
    let mut rows = Vec::new(alloc);
    for thing in things {
        push_rows(alloc, &mut rows, slots, thing, rack)?;
    }
    Ok(rows)
}

/// Puts the rows of a Thing at the end.
fn push_rows<R: Handlers>(
    alloc: Global,
    rows: &mut Vec<Row>,
    slots: &Slots,
    thing: &Thing,
    rack: &R,
) -> Result<(), NoMemory>
    requires { IsValid (json_of thing.now.tree) }
    ensures { OnOk result (rows.new.items ≡ rows.old.items ++ table.rows_of_thing slots.now (kinds_of (R.slots rack.now)) (kept_thing thing.now)) }
{
    let affordances = Description::of(alloc, &thing.tree)?;
    for affordance in affordances.affordances() {
        let row = row_of(alloc, slots, thing, affordance, rack)?;
        push(rows, row)?;
    }
    Ok(())
}

/// Puts a row at the end.
fn push(rows: &mut Vec<Row>, row: Row) -> Result<(), NoMemory>
    ensures { OnOk result (rows.new.items ≡ rows.old.items ++ row ∷ []) }
{
    rows.push(row)?;
    Ok(())
}

/// The row of an affordance of a Thing.
fn row_of<R: Handlers>(
    alloc: Global,
    slots: &Slots,
    thing: &Thing,
    affordance: &Affordance,
    rack: &R,
) -> Result<Row, NoMemory>
    requires { IsValid (json_of thing.now.tree) }
    ensures { IfOk result (λ row. row ≡ table.row_of slots.now (kinds_of (R.slots rack.now)) (kept_thing thing.now) affordance.now) }
{
    let pointer = pointer_of(alloc, affordance)?;
    let slot = slots.slot_of(thing.segment.as_str(), pointer.as_str());
    let (http, coap) = hrefs_of(alloc, thing, affordance)?;
    Ok(Row {
        segment: Text::copy_of(alloc, thing.segment.as_str())?,
        kind: affordance.kind,
        name: Text::copy_of(alloc, affordance.name.as_str())?,
        pointer,
        slot,
        handler: handler_in(rack, slot),
        observable: is_kind(Kind::Property, affordance.kind) && affordance.observable,
        http,
        coap,
    })
}

/// The kind of the handler that the rack has in a slot.
fn handler_in<R: Handlers>(rack: &R, slot: Option<usize>) -> Option<Kind>
    ensures { result ≡ option_and_then (slice_get (kinds_of (R.slots rack.now))) slot }
{
    match handler_at(rack, slot) {
        Some((_, kind)) => Some(kind),
        None => None,
    }
}

/// The first `href` of the forms of an affordance over HTTP, and the first over CoAP.
fn hrefs_of(
    alloc: Global,
    thing: &Thing,
    affordance: &Affordance,
) -> Result<(Option<Text>, Option<Text>), NoMemory>
    requires { IsValid (json_of thing.now.tree) }
    ensures http { IfOk result (λ hrefs. hrefs.0 ≡ table.first_href (codes "http://") (codes "https://") (table.forms_for (json_of thing.now.tree) affordance.now)) }
    ensures coap { IfOk result (λ hrefs. hrefs.1 ≡ table.first_href (codes "coap://") (codes "coaps://") (table.forms_for (json_of thing.now.tree) affordance.now)) }
{
    let kind = Some(affordance.kind);
    match forms_of(alloc, &thing.tree, kind, affordance.name.as_str())? {
        Some(forms) => Ok((
            first_href(alloc, forms.as_slice(), "http://", "https://")?,
            first_href(alloc, forms.as_slice(), "coap://", "coaps://")?,
        )),
        None => Ok((None, None)),
    }
}

/// A copy of the first `href` that begins with one scheme or with the other.
fn first_href(
    alloc: Global,
    forms: &[Form],
    one: &str,
    other: &str,
) -> Result<Option<Text>, NoMemory>
    ensures { IfOk result (λ href. href ≡ table.first_href one.now other.now forms.now) }
{
    match first_form(forms, one, other) {
        Some(form) => Ok(Some(Text::copy_of(alloc, form.href.as_str())?)),
        None => Ok(None),
    }
}

/// The first form whose `href` begins with one scheme or with the other. It is a function, since the search proves `find` in a
/// function alone.
fn first_form<'a>(forms: &'a [Form], one: &str, other: &str) -> Option<&'a Form>
    ensures { option_map (λ form. form.now) result ≡ find (table.begins_with one.now other.now) forms.now }
{
    forms.iter().find(|form| begins_with(form, one, other))
}

/// The `href` of a form begins with one scheme or with the other.
fn begins_with(form: &Form, one: &str, other: &str) -> bool
    ensures { result ≡ table.begins_with one.now other.now form.now }
{
    let href = form.href.as_str().as_bytes();
    href.starts_with(one.as_bytes()) || href.starts_with(other.as_bytes())
}
