//! The URLs that generated forms lead to.

ghost use Rattle.std.specs.Prelude.{◌≡◌, ◌++◌, IfOk, OnOk, codes, string_bytes};
ghost use Rattle.servient_base.specs.Encoding.{encoded};
ghost use Rattle.wot_forms.specs.Generated.{affordance_path, holder_path, is_coap_segment as is_coap_segment_of};

use servient_base::push_encoded;
use std::alloc::Global;
use wot_json::{NoMemory, Text};
use wot_terms::Kind;

/// The most bytes of a segment of a path of CoAP (RFC 7252, section 5.10).
const LONGEST_COAP_SEGMENT: usize = 255;

/// The URL of the affordances of a kind.
pub(crate) fn holder_url(
    alloc: Global,
    base: &str,
    segment: &str,
    kind: Kind,
) -> Result<Text, NoMemory>
    ensures { IfOk result (λ url. url ≡ holder_path base.now segment.now kind) }
{
    let mut url = String::from_str(alloc, base)?;
    push_segment(&mut url, segment)?;
    url.push_str("/")?;
    url.push_str(kind.holder())?;
    Ok(Text::from_string(url))
}

/// The URL of an affordance.
pub(crate) fn affordance_url(
    alloc: Global,
    base: &str,
    segment: &str,
    kind: Kind,
    name: &str,
) -> Result<Text, NoMemory>
    ensures { IfOk result (λ url. url ≡ affordance_path base.now segment.now kind name.now) }
{
    let mut url = holder_url(alloc, base, segment, kind)?.into_string();
    push_segment(&mut url, name)?;
    Ok(Text::from_string(url))
}

/// A URL with more of a path at its end.
pub(crate) fn extended_url(alloc: Global, url: &str, more: &str) -> Result<Text, NoMemory>
    ensures { IfOk result (λ longer. longer ≡ url.now ++ more.now) }
{
    let mut longer = String::from_str(alloc, url)?;
    longer.push_str(more)?;
    Ok(Text::from_string(longer))
}

/// Puts a `/` and a name, as a segment of a path, at the end.
fn push_segment(url: &mut String, name: &str) -> Result<(), NoMemory>
    ensures { OnOk result (string_bytes url.new ≡ string_bytes url.old ++ codes "/" ++ encoded name.now) }
{
    url.push_str("/")?;
    push_encoded(url, name.as_bytes())
}

/// Whether a name can be a segment of a path of CoAP.
pub(crate) fn is_coap_segment(name: &str) -> bool
    ensures { result ≡ is_coap_segment_of name.now }
{
    name.len() <= LONGEST_COAP_SEGMENT && name != "." && name != ".."
}
