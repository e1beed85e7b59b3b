//! A request was sent, and its answer is awaited.

ghost use Rattle.std.specs.Prelude.{◌≡◌, None};
ghost use Rattle.network_consumer.specs.Deeds.{put_in, sight, Shows};
ghost use Rattle.network_consumer.specs.Answers.{CanBeJudged};
ghost use Rattle.network_consumer.specs.Waiting.{event_of, Hears, IsReady};

use crate::coap_waiting::CoapWaiting;
use crate::http_waiting::HttpWaiting;
use crate::{ClientTask, Consumed};
use servient_outside::{Event, Net, Out};

/// An event and the bytes that came with it.
#[derive(Clone, Copy)]
pub struct Came<'a> {
    pub event: Event,
    pub bytes: &'a [u8],
}

/// The state of waiting for an answer, by the scheme of the form.
#[derive(Drop)]
pub enum Waiting {
    Http(HttpWaiting),
    Coap(CoapWaiting),
}

impl Waiting {
    /// Takes an event, does what it asks for, and says how the operation ends by that, or that it goes on.
    pub fn hear<N: Net, O: Out>(
        &mut self,
        task: &ClientTask<'_>,
        came: &Came<'_>,
        net: &mut N,
        out: &mut O,
    ) -> Option<Consumed>
        requires asked { CanBeJudged task.now.purpose }
        requires ready { IsReady task.now.chosen.now self.old }
        ensures hears { Shows (λ deeds. Hears task.now.purpose task.now.chosen.now self.old (event_of came.now) deeds result self.new)
            (sight (N.seen net.old) (O.seen out.old)) (sight (N.seen net.new) (O.seen out.new)) (put_in result) }
        ensures ready { result ≡ None → IsReady task.now.chosen.now self.new }
    {
        match self {
            Waiting::Http(waiting) => waiting.hear(task, came, out),
            Waiting::Coap(waiting) => waiting.hear(task, came, net, out),
        }
    }
}
