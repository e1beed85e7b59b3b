//! Opening a servient: the root of a plan is derived, and each affordance of its Things gets its handler.

ghost use Rattle.std.specs.Prelude.{◌≡◌, true, length, IfOk};
ghost use Rattle.std.specs.List.{AllByRecursion};
ghost use Rattle.wot_forms.specs.Segments.{is_plain_segment};
ghost use Rattle.wot_terms.specs.Faults.{IsValid};
ghost use Rattle.thing_site.specs.Exposing.{kinds_of};
ghost use Rattle.thing_site.specs.Fits.{Fits};
ghost use Rattle.servient_plan.specs.Plan.{MayBeServed};
ghost use Rattle.servient_core.specs.Machine.{start};
ghost use Rattle.servient_core.specs.Serving.{StandsFor};
ghost use Rattle.command_stages.specs.Stages.{Around};
ghost use Rattle.servient_cli.specs.Opening.{Exposes, Opens, site_in, site_of_counted};
ghost use Rattle.command_stages.specs.Ending.{Performs};

use command_stages::{Ended, Planned, derive_things, end_with, misfit};
use servient_core::{OpenFault, Plan, Servient};
use std::alloc::Global;
use thing_handler::Handlers;
use wot_terms::Things;

/// The servient of a plan, whose Things are derived here. A line on the fit to the rack names the plan by `name`.
pub fn open<R: Handlers>(
    alloc: Global,
    name: &str,
    planned: &Planned,
    rack: &R,
) -> Result<Servient, Ended>
    requires served { MayBeServed planned.now.plan }
    ensures stage { (a : Around) → Performs (Opens name.now (kinds_of (R.slots rack.now)) planned.now) a a (site_in result) }
    ensures start { IfOk result (λ s. StandsFor s (start s.exposed.site planned.now.plan.exchanges planned.now.plan.epoch)) }
    ensures fits { IfOk result (λ s. Fits s.exposed.site (R.slots rack.now)) }
{
    let things = derive_things(alloc, planned)?;
    expose(alloc, name, &planned.plan, things, rack)
}

/// A servient, and the number of its Things.
#[derive(Drop)]
pub struct CountedServient {
    pub servient: Servient,
    pub things: usize,
}

/// The same as `open`, with the number of Things.
pub fn open_counted<R: Handlers>(
    alloc: Global,
    name: &str,
    planned: &Planned,
    rack: &R,
) -> Result<CountedServient, Ended>
    requires served { MayBeServed planned.now.plan }
    ensures stage { (a : Around) → Performs (Opens name.now (kinds_of (R.slots rack.now)) planned.now) a a (site_of_counted result) }
    ensures start { IfOk result (λ s. StandsFor s.servient (start s.servient.exposed.site planned.now.plan.exchanges planned.now.plan.epoch)) }
    ensures fits { IfOk result (λ s. Fits s.servient.exposed.site (R.slots rack.now)) }
    ensures count { IfOk result (λ s. s.things ≡ length s.servient.exposed.site.things) }
{
    let derived = derive_things(alloc, planned)?;
    let things = derived.as_slice().len();
    let servient = expose(alloc, name, &planned.plan, derived, rack)?;
    Ok(CountedServient { servient, things })
}

/// The servient of a plan and its Things, each affordance with its handler.
fn expose<R: Handlers>(
    alloc: Global,
    name: &str,
    plan: &Plan,
    things: Things,
    rack: &R,
) -> Result<Servient, Ended>
    requires served { MayBeServed plan.now }
    requires valid { AllByRecursion (λ thing. IsValid thing.1) things }
    requires plain { AllByRecursion (λ thing. is_plain_segment thing.0 ≡ true) things }
    ensures stage { (a : Around) → Performs (Exposes name.now (kinds_of (R.slots rack.now)) plan.now things) a a (site_in result) }
    ensures start { IfOk result (λ s. StandsFor s (start s.exposed.site plan.now.exchanges plan.now.epoch)) }
    ensures fits { IfOk result (λ s. Fits s.exposed.site (R.slots rack.now)) }
    ensures count { IfOk result (λ s. length s.exposed.site.things ≡ length things) }
{
    match Servient::new(alloc, plan, things, rack) {
        Ok(servient) => Ok(servient),
        Err(OpenFault::Expose(fault)) => Err(end_with(misfit(alloc, name, &fault))),
        Err(OpenFault::NoMemory) => Err(Ended::NoMemory),
    }
}
