//! Where a servient listens, if that isn't where descriptions and links say that it is: it stands behind a proxy then.

ghost use Rattle.std.specs.Prelude.{◌≡◌, codes, is_some, option_map, IfOk};
ghost use Rattle.wot_json.specs.Meaning.{json_of};
ghost use Rattle.wot_json.specs.Lookup.{member_named};
ghost use Rattle.wot_json.specs.Merge.{members_under};
ghost use Rattle.servient_plan.specs.Plan.{Reads};
ghost use Rattle.servient_plan.specs.Plan as spec;

use crate::plan::PlanFault;
use crate::texts::TextRow;
use crate::values::{row, taken_text, text_in};
use std::alloc::Global;
use wot_forms::Bases;
use wot_json::{NoMemory, Tree};

/// A member `listen` stands in the plan, whatever its value is.
pub(crate) fn has_listen(tree: &Tree) -> bool
    ensures { result ≡ spec.has_listen (members_under (json_of tree.now)) }
{
    match tree.member("listen") {
        Some(_) => true,
        None => false,
    }
}

/// The bases at which a servient listens, which may be absent.
fn listen_in(alloc: Global, value: Option<&Tree>) -> Result<Option<Option<Bases>>, NoMemory>
    ensures { IfOk result (λ o. o ≡ spec.listen_in (option_map (λ t. json_of t.now) value.entry)) }
{
    match value {
        Some(value) => match bases_in(alloc, value)? {
            Some(bases) => Ok(Some(Some(bases))),
            None => Ok(None),
        },
        None => Ok(Some(None)),
    }
}

/// The bases that a value has, each such as a plan has it that doesn't say where it listens.
fn bases_in(alloc: Global, value: &Tree) -> Result<Option<Bases>, NoMemory>
    ensures { IfOk result (λ o. o ≡ spec.bases_in (json_of value.now)) }
{
    let http = taken_text(alloc, TextRow::Http, text_in(value.member("http")))?;
    let coap = taken_text(alloc, TextRow::Coap, text_in(value.member("coap")))?;
    match (http, coap) {
        (Some(http), Some(coap)) => Ok(Some(Bases { http, coap })),
        _ => Ok(None),
    }
}

/// The member `listen`.
pub(crate) fn listen_row(alloc: Global, tree: &Tree) -> Result<Option<Bases>, PlanFault>
    ensures { Reads result (spec.member_row (codes "listen") spec.listen_in (members_under (json_of tree.now))) }
{
    let listen = listen_in(alloc, tree.member("listen"))?;
    row(alloc, "listen", listen)
}
