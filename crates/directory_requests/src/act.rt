//! The acts of the directory, by path and verb, and the formats that each takes.

ghost use Rattle.std.specs.Prelude.{◌≡◌, Some, None, MatchResult, slice_get};
ghost use Rattle.thing_ops.specs.Requests.{request_seen};
ghost use Rattle.thing_ops.specs.Routes.{route_of};
ghost use Rattle.thing_ops.specs.Verbs.{verbs_in, verbs_of};
ghost use Rattle.directory_requests.specs.Asked as spec;

use thing_ops::{Allow, Flags, RouteKind, Segments, Verb, allowed};
use thing_site::{AnswerFormat, BodyFormat};

/// An act that a request asks of the directory. The id of an entry is in the request's path.
#[derive(Clone, Copy, Debug, PartialEq, Eq, Drop)]
pub enum DirectoryAct {
    /// The list of the descriptions.
    Lists,
    /// A description is to be kept under an id that the directory gives.
    Creates,
    /// The description under an id.
    Shows,
    /// A description is to be kept under an id.
    Puts,
    /// The description under an id is to be changed by a merge patch.
    Patches,
    /// The description under an id is to be removed.
    Removes,
}

/// No property is at a path of the directory.
const NO_FLAGS: Flags = Flags {
    read_only: false,
    write_only: false,
};

/// A path of this form is the directory's own or that of an entry.
pub fn is_of_directory(route: RouteKind) -> bool
    ensures { result ≡ spec.is_of_directory route }
{
    match route {
        RouteKind::Things | RouteKind::Entry => true,
        _ => false,
    }
}

/// The act of a verb at a path of this form; else the verbs that are taken there.
pub fn act_at(route: RouteKind, verb: Verb) -> Result<DirectoryAct, Allow>
    ensures { MatchResult result
        (λ act. spec.act_at route verb ≡ Some act)
        (λ allow. (spec.act_at route verb ≡ None) × (verbs_in allow ≡ verbs_of route spec.no_flags)) }
{
    let allow = allowed(route, NO_FLAGS);
    if allow.takes(verb) {
        Ok(act_of(route, verb))
    } else {
        Err(allow)
    }
}

/// The act of a verb where it is taken.
fn act_of(route: RouteKind, verb: Verb) -> DirectoryAct
    ensures { result ≡ spec.act_of route verb }
{
    match (route, verb) {
        (RouteKind::Things, Verb::Post) => DirectoryAct::Creates,
        (RouteKind::Things, _) => DirectoryAct::Lists,
        (_, Verb::Put) => DirectoryAct::Puts,
        (_, Verb::Patch) => DirectoryAct::Patches,
        (_, Verb::Delete) => DirectoryAct::Removes,
        _ => DirectoryAct::Shows,
    }
}

impl DirectoryAct {
    /// The formats of its answer.
    pub fn answer_format(self) -> AnswerFormat
        ensures { result ≡ spec.answer_format self }
    {
        match self {
            DirectoryAct::Lists => AnswerFormat::Json,
            DirectoryAct::Shows => AnswerFormat::Description,
            DirectoryAct::Creates
            | DirectoryAct::Puts
            | DirectoryAct::Patches
            | DirectoryAct::Removes => AnswerFormat::Any,
        }
    }

    /// The formats of its body.
    pub fn body_format(self) -> BodyFormat
        ensures { result ≡ spec.body_format self }
    {
        match self {
            DirectoryAct::Creates | DirectoryAct::Shows | DirectoryAct::Puts => {
                BodyFormat::Description
            }
            DirectoryAct::Patches => BodyFormat::Patch,
            DirectoryAct::Lists | DirectoryAct::Removes => BodyFormat::Json,
        }
    }
}

/// The id that the path of an entry names.
pub fn entry_id(path: &Segments) -> &str
    requires { route_of path.now ≡ RouteKind.Entry }
    ensures { result.now ≡ spec.id_in path.now }
{
    match path.get(1) {
        Some(segment) => match str::from_utf8(segment) {
            Ok(id) => id,
            Err(_) => unreachable!(),
        },
        None => unreachable!(),
    }
}
