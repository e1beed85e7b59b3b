//! The members of a plan that are texts, and the texts that each may be.

ghost use Rattle.std.specs.Prelude.{◌≡◌, MatchOption, None, Some};
ghost use Rattle.servient_plan.specs.Plan as spec;

use servient_base::point_in;
use wot_forms::has_name_bytes;

/// The most bytes of the segment of the root.
const MOST_SEGMENT: usize = 64;

/// A member of a plan that is a text. `takes_text` of `specs/Plan.antt` is the table.
#[derive(Clone, Copy, Debug)]
pub(crate) enum TextRow {
    Name,
    Id,
    Http,
    Coap,
    /// `http` of a plan that says besides where it listens.
    PublicHttp,
    /// `coap` of such a plan.
    PublicCoap,
    Root,
}

impl TextRow {
    /// The row of `http`, in a plan that says where it listens or in another one.
    pub(crate) fn http(listens: bool) -> TextRow
        ensures { result ≡ spec.http_row listens }
    {
        if listens {
            TextRow::PublicHttp
        } else {
            TextRow::Http
        }
    }

    /// The row of `coap`.
    pub(crate) fn coap(listens: bool) -> TextRow
        ensures { result ≡ spec.coap_row listens }
    {
        if listens {
            TextRow::PublicCoap
        } else {
            TextRow::Coap
        }
    }

    /// The name of the member.
    pub(crate) fn name(self) -> &'static str
        ensures { result.now ≡ spec.member_of self }
    {
        match self {
            TextRow::Name => "name",
            TextRow::Id => "id",
            TextRow::Http | TextRow::PublicHttp => "http",
            TextRow::Coap | TextRow::PublicCoap => "coap",
            TextRow::Root => "model",
        }
    }

    /// The member may be this text.
    pub(crate) fn takes(self, text: &str) -> bool
        ensures { result ≡ spec.takes_text self text.now }
    {
        match self {
            TextRow::Name => is_root_segment(text),
            TextRow::Id => !text.is_empty(),
            TextRow::Http => is_base("http://", text),
            TextRow::Coap => is_base("coap://", text),
            TextRow::PublicHttp => is_base("http://", text) || is_base("https://", text),
            TextRow::PublicCoap => is_base("coap://", text) || is_base("coaps://", text),
            TextRow::Root => true,
        }
    }
}

/// The text is a segment that the root can't have.
fn is_reserved(text: &str) -> bool
    ensures { result ≡ spec.is_reserved text.now }
{
    text == "things" || text == ".well-known" || text == "." || text == ".."
}

/// The text may be the segment of the root.
fn is_root_segment(text: &str) -> bool
    ensures { result ≡ spec.is_root_segment text.now }
{
    has_name_bytes(text.as_bytes())
        && !text.is_empty()
        && text.len() <= MOST_SEGMENT
        && !is_reserved(text)
}

/// The text is a base with this scheme.
fn is_base(scheme: &str, text: &str) -> bool
    ensures { result ≡ spec.is_base scheme.now text.now }
{
    base_point(scheme, text).is_some()
}

/// The host and the port of a base with this scheme, where the text is one.
pub(crate) fn base_point<'a>(scheme: &str, text: &'a str) -> Option<(&'a str, u16)>
    ensures { MatchOption result (spec.base_point scheme.now text.now ≡ None) (λ p. spec.base_point scheme.now text.now ≡ Some (p.0.now, p.1)) }
{
    match text.strip_prefix(scheme) {
        Some(place) => point_in(place),
        None => None,
    }
}
