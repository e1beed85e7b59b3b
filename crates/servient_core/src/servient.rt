//! The servient of a plan, and its step on one event.

ghost use Rattle.std.specs.Prelude.{◌≡◌, ◌≤◌, ◌<◌, [], true, length, IfOk, IfErr, IfSome, OnOk};
ghost use Rattle.std.specs.List.{AllByRecursion};
ghost use Rattle.servient_base.specs.Moves.{Refines};
ghost use Rattle.wot_forms.specs.Segments.{is_plain_segment};
ghost use Rattle.wot_terms.specs.Faults.{IsValid};
ghost use Rattle.thing_site.specs.Site.{site_of, expose_faults};
ghost use Rattle.thing_site.specs.Exposing.{kinds_of};
ghost use Rattle.thing_state.specs.State.{most_turns};
ghost use Rattle.thing_site.specs.Fits.{Fits};
ghost use Rattle.wot_registry.specs.Dates.{last_millisecond};
ghost use Rattle.servient_outside.specs.Network.{byte_count, IsEvent};
ghost use Rattle.servient_trace.specs.Trace.{Shows, outside};
ghost use Rattle.core_links.specs.Links.{IsLinkText};
ghost use Rattle.coap_bind.specs.Server.{start as nothing_came, with_links};
ghost use Rattle.servient_core.specs.declared.capacity.TheConstants.{MOST_WATCHERS};
ghost use Rattle.wot_terms.specs.ThingLists.{segments_in};
ghost use Rattle.servient_core.specs.Links.{links_to, segments_of, text_of_links};
ghost use Rattle.servient_core.specs.Machine.{start, Step};
ghost use Rattle.servient_core.specs.Serving.{StandsFor, IsOpenFault};

use crate::capacity::MOST_WATCHERS;
use crate::connections::Rooms;
use crate::layers::Layers;
use crate::links::text_of_links;
use crate::{Event, Net, Plan};
use coap_bind::CoapBind;
use directory_requests::DirectoryServer;
use http_bind::HttpBind;
use servient_base::NoMemory;
use std::alloc::{AllocError, Global};
use std::marker::Model;
use thing_core::{ExposeFault, Exposed};
use thing_handler::Handlers;
use thiserror::Error;
use wot_terms::{Thing, Things};

/// The servient of a plan. Contracts see its state (`Layers`), and which states of the machine it stands for
/// (`StandsFor` of `specs/Serving.antt`).
#[derive(Drop)]
pub struct Servient {
    layers: Layers,
    /// Room for messages of HTTP and their replies.
    rooms: Box<Rooms>,
}

impl Model for Servient {
    ghost use Rattle.std.specs.Coded.{codes};
    ghost use Rattle.thing_core.specs.Kept.{kept_code};
    ghost use Rattle.wot_directory.specs.Contents.{contents_code};
    ghost use Rattle.wot_registry.specs.Registry.{registered_code};
    ghost use Rattle.servient_core.specs.declared.layers.Layers.{Layers};
    ghost use Rattle.servient_core.specs.Serving.{IsReady};

    ghost Value = { Layers };

    ghost coded = { Prim.hlevel (codes, kept_code, contents_code, registered_code) };

    ghost view = { λ s. s.layers };

    ghost invariant = { λ s. IsReady s.layers };
}

/// The cause for which a servient can't be made.
#[derive(Debug, Drop, Error)]
pub enum OpenFault {
    /// The plan and its Things don't fit the rack.
    #[error("the plan doesn't fit the rack: {0:?}")]
    Expose(ExposeFault),
    /// Out of memory.
    #[error("out of memory")]
    NoMemory,
}

impl From<AllocError> for OpenFault {
    ghost use Rattle.std.specs.Prelude.{◌≡◌};
    ghost use Rattle.servient_core.specs.declared.servient.OpenFault.TheVariants.{NoMemory};

    ghost from_gives = { λ _ fault. fault ≡ NoMemory };

    fn from(_error: AllocError) -> OpenFault {
        OpenFault::NoMemory
    }
}

/// The CoAP server of a servient of these Things, in which `exchanges` exchanges may live: with the links to them.
fn coap_of(alloc: Global, exchanges: u32, things: &[Thing]) -> Result<CoapBind, NoMemory>
    requires least { 16 ≤ exchanges }
    requires most { exchanges ≤ 65536 }
    ensures { IfOk result (λ c. c ≡ with_links (text_of_links (segments_in things.now)) (nothing_came exchanges MOST_WATCHERS)) }
{
    let mut coap = CoapBind::new(alloc, exchanges, MOST_WATCHERS)?;
    coap.set_links(text_of_links(alloc, things)?);
    Ok(coap)
}

impl Servient {
    /// The servient of a plan and of the Things that were derived from it, before its first event. Every buffer that
    /// later steps use is taken here.
    pub fn new<R: Handlers>(
        alloc: Global,
        plan: &Plan,
        things: Things,
        rack: &R,
    ) -> Result<Servient, OpenFault>
        requires valid { AllByRecursion (λ t. IsValid t.1) things }
        requires plain { AllByRecursion (λ t. is_plain_segment t.0 ≡ true) things }
        requires least { 16 ≤ plan.now.exchanges }
        requires most { plan.now.exchanges ≤ 65536 }
        requires epoch { IfSome plan.now.epoch (λ e. e ≤ last_millisecond) }
        ensures site { IfOk result (λ s. s.exposed.site ≡ site_of plan.now.versions plan.now.slots things) }
        ensures start { IfOk result (λ s. StandsFor s (start s.exposed.site plan.now.exchanges plan.now.epoch)) }
        // Its links are a link text, with a link to each Thing in order.
        ensures links { IfOk result (λ s. IsLinkText s.coap.links (links_to (segments_of s.exposed.site))) }
        ensures faultless { OnOk result (expose_faults (kinds_of (R.slots rack.now)) plan.now.slots things ≡ []) }
        ensures fits { IfOk result (λ s. Fits s.exposed.site (R.slots rack.now)) }
        ensures fault { IfErr result (λ fault. IsOpenFault (expose_faults (kinds_of (R.slots rack.now)) plan.now.slots things) fault) }
    {
        let rooms = Rooms::new(alloc)?;
        let http = HttpBind::new(alloc)?;
        let coap = coap_of(alloc, plan.exchanges, things.as_slice())?;
        let exposed = match Exposed::new(alloc, things, &plan.slots, rack, plan.versions) {
            Ok(exposed) => exposed,
            Err(fault) => return Err(OpenFault::Expose(fault)),
        };
        Ok(Servient {
            layers: Layers {
                moment: 0,
                exposed,
                directory: DirectoryServer::new(alloc, plan.epoch),
                coap,
                http,
            },
            rooms,
        })
    }

    /// The number of turns that the run has so far.
    pub fn turns(&self) -> u64
        ensures count { result ≡ self.now.exposed.state.turns }
        ensures bound { result ≤ most_turns self.now.exposed.state.left_out }
    {
        self.layers.exposed.accounts().calls
    }

    /// The most turns that the run may have.
    pub fn most_turns(&self) -> u64
        ensures { result ≡ most_turns self.now.exposed.site.left_out }
    {
        self.layers.exposed.most_turns()
    }

    /// Makes the step of one event. Where it is out of memory, that shows as a reply or as a poll that is left out.
    pub fn step<N: Net, R: Handlers>(
        &mut self,
        net: &mut N,
        rack: &mut R,
        event: &Event,
        bytes: &[u8],
    )
        requires fits { Fits self.old.exposed.site (R.slots rack.old) }
        requires event { IsEvent event.now }
        requires bytes { length bytes.now ≡ byte_count event.now.what }
        ensures step { Refines StandsFor Shows (Step self.old.exposed.site (record { event = event.now; bytes = bytes.now }))
            self.old self.new
            (outside (N.seen net.old) (R.slots rack.old)) (outside (N.seen net.new) (R.slots rack.new)) }
        ensures site { self.new.exposed.site ≡ self.old.exposed.site }
        ensures fits { Fits self.new.exposed.site (R.slots rack.new) }
    {
        self.layers.moment = self.layers.moment.max(event.moment);
        self.layers.follow(net, rack, event, bytes, &mut self.rooms);
        self.layers.end_event(net, &mut self.rooms.reply);
    }
}
