//! The verbs of requests, and their names.

ghost use Rattle.std.specs.Prelude.{◌≡◌, ◌≤◌, length};
ghost use Rattle.thing_ops.specs.Verbs.{verb_name};

/// The method of a request: one of HTTP (RFC 9110, section 9, and RFC 5789) or of
/// CoAP (RFC 7252, section 5.8, and RFC 8132).
#[derive(Clone, Copy, Debug, PartialEq, Eq, Drop)]
pub enum Verb {
    Get,
    Head,
    Put,
    Post,
    Patch,
    Delete,
    /// Any other method.
    Other,
}

impl Verb {
    /// The name of the method in HTTP; nothing for another method.
    pub fn name(self) -> &'static str
        ensures text { result.now ≡ verb_name self }
        ensures short { length result.now ≤ 6 }
    {
        match self {
            Verb::Get => "GET",
            Verb::Head => "HEAD",
            Verb::Put => "PUT",
            Verb::Post => "POST",
            Verb::Patch => "PATCH",
            Verb::Delete => "DELETE",
            Verb::Other => "",
        }
    }
}
