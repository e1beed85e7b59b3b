//! Laws on what descriptions say.

ghost use Rattle.description_laws.specs.Encoding.{EncodingIsUndone};
ghost use Rattle.description_laws.specs.Leading.{FormsLeadToTheirAffordances};
ghost use Rattle.description_laws.specs.Taking.{ActsHaveTheirForm};

/// A segment of any bytes, percent-encoded as in the forms that a servient generates, is read back as it was.
#[tactic(auto, using(crate::proofs::EncodedBytes::undone))]
pub fn encoding_is_undone()
    ensures { EncodingIsUndone }
{}

/// Each form of a description that is derived leads to its own affordance, over HTTP and over CoAP: the path of its
/// `href`, as the binding reads paths, is that affordance's, and the verb of each of its operations is taken there and is
/// the act of that operation. So are the forms of the Thing as a whole and the URL of the description itself. Left out are
/// the operations that end an observation over HTTP, which are no request, and those that observe a write-only property
/// over CoAP, which are answered 4.05.
pub fn forms_lead_to_their_affordances()
    ensures { FormsLeadToTheirAffordances }
{}

/// Whatever a verb does at a path of a derived Thing has a form in its description, over HTTP and over CoAP. Left out are
/// HEAD; the last emission of an event by HTTP; waiting by CoAP, which is answered as missing; names that no URL says by
/// CoAP; an invocation, whose path its reply says; reading all where nothing can be read and writing several where nothing
/// can be written; and the description itself.
pub fn acts_have_their_form()
    ensures { ActsHaveTheirForm }
{}
