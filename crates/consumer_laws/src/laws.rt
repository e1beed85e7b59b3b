//! Laws on a consumer and a servient.

ghost use Rattle.consumer_laws.specs.Choosing.{RequestsAreWhatWasChosen};
ghost use Rattle.consumer_laws.specs.Consuming.{ConsumingDoesWhatIsDescribed, RepliesAreWhatIsPrinted};
ghost use Rattle.consumer_laws.specs.Outputs.{OutputsAreTaken};
ghost use Rattle.consumer_laws.specs.Replying.{RepliesAreReadBack};

/// A choice over HTTP of a derived description is the act of its operation: at its path its verb is taken and is that
/// act. And the bytes of `http_request` are read as the request for it with what is handed in, whole, with nothing
/// left over, in whatever pieces they come.
///
/// It is asked that the head fits into 8,192 bytes and what is handed in into 16,384, that `url` reads each `href` as it is
/// written, and that the host is of visible characters.
pub fn requests_are_what_was_chosen()
    ensures { RequestsAreWhatWasChosen }
{}

/// A reply over HTTP to a request other than HEAD, of at most 65,536 bytes, is read by `scan_reply` as its status and
/// payload, whether its connection stays or ends. A part of it is read as a reply that isn't whole yet.
pub fn replies_are_read_back()
    ensures { RepliesAreReadBack }
{}

/// Each value that a derived Thing takes from a device for an operation, and an object of such values of its properties,
/// is accepted by `judge_output`, by the same description; and its text is read as that value, where it nests at most 64
/// deep.
pub fn outputs_are_taken()
    ensures { OutputsAreTaken }
{}

/// An operation over HTTP, over a network that brings no bytes but those of one reply, in any pieces: it ends as done only
/// where it heard the whole reply and its status is a success, and then the payload of that reply is printed and nothing
/// else. Else nothing is printed, unless the output fails.
pub fn replies_are_what_is_printed()
    ensures { RepliesAreWhatIsPrinted }
{}

/// An operation over HTTP by the description of a derived Thing asks for the act of that operation, and a servient takes
/// exactly that request or none, whatever is lost and in whatever pieces it comes. Where the operation ends as done the
/// request was taken, once, its outcome is a success, and the payload of that outcome is printed and nothing else. Else
/// nothing is printed, unless the output fails.
///
/// It is asked what `requests_are_what_was_chosen` asks, that the network brings no bytes but those that were sent, and
/// that the reply has at most 65,536 bytes. It isn't said that an operation ends as done, nor which outcome a request
/// comes to: that is the servient's.
pub fn consuming_does_what_is_described()
    ensures { ConsumingDoesWhatIsDescribed }
{}
