//! A law of tags, as the contract of a function that does nothing, since a law is proved only as a clause.

ghost use Rattle.coap_opts.specs.Reading.{TagsAreReadAgain};

/// The tag of a version, as it is written in ETag, is read as that version (RFC 7252, sections 5.10.6 and 5.10.8).
pub fn tags_are_read_again()
    ensures { TagsAreReadAgain }
{}
