//! The protocols of a servient, and the bases of their URLs, to which the forms of a Thing lead.

ghost use Rattle.std.specs.Prelude.{◌≡◌};
ghost use Rattle.wot_forms.specs.Generated.{base_of, observe_path as observe_path_of, subprotocol_of, subscribe_path as subscribe_path_of};

use wot_json::Text;

/// The bases with which the URLs of a servient begin.
#[derive(Debug, Drop)]
pub struct Bases {
    /// `http://HOST:PORT`, without a `/` at the end.
    pub http: Text,
    /// `coap://HOST:PORT`, without a `/` at the end.
    pub coap: Text,
}

/// A protocol that each Thing is served by.
#[derive(Clone, Copy, Debug)]
pub(crate) enum Protocol {
    Http,
    Coap,
}

impl Protocol {
    /// The part of its URLs before the path.
    pub(crate) fn base(self, bases: &Bases) -> &str
        ensures { result.now ≡ base_of bases.now self }
    {
        match self {
            Protocol::Http => bases.http.as_str(),
            Protocol::Coap => bases.coap.as_str(),
        }
    }

    /// The subprotocol of a form for values that come by themselves.
    pub(crate) fn subprotocol(self) -> &'static str
        ensures { result.now ≡ subprotocol_of self }
    {
        match self {
            Protocol::Http => "longpoll",
            Protocol::Coap => "cov:observe",
        }
    }

    /// The part that the path for observing has after that of the property.
    pub(crate) fn observe_path(self) -> &'static str
        ensures { result.now ≡ observe_path_of self }
    {
        match self {
            Protocol::Http => "/observe",
            Protocol::Coap => "",
        }
    }

    /// The part that the path for subscribing has after that of the event.
    pub(crate) fn subscribe_path(self) -> &'static str
        ensures { result.now ≡ subscribe_path_of self }
    {
        match self {
            Protocol::Http => "/subscribe",
            Protocol::Coap => "",
        }
    }
}
