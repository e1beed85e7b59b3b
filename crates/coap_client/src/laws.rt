//! Laws of the client, as contracts of functions that do nothing, since a law is proved only as a clause.

ghost use Rattle.coap_client.specs.Laws.{RetransmissionsEnd, TakenFromTheAsked, TakenFromAPeer, IdsRest};
ghost use Rattle.coap_client.specs.Requests.{LastIsOutstanding, LastIsRetransmitted, IdsDiffer, AsksAreMessages};
ghost use Rattle.coap_client.specs.Tokens.{RegistrationIsObserved, TokenIsNewOrObserved, RegistrationsDiffer, NoValueYet};

/// A retransmission is sent less than 93 seconds after the first (RFC 7252, section 4.8.2, MAX_TRANSMIT_WAIT).
pub fn retransmissions_end()
    ensures { RetransmissionsEnd }
{}

/// A message that is taken comes from a server that was asked (RFC 7252, section 5.3.2).
pub fn taken_from_the_asked()
    ensures { TakenFromTheAsked }
{}

/// A message that is taken comes from the server of the outstanding request or of the observation.
pub fn taken_from_a_peer()
    ensures { TakenFromAPeer }
{}

/// An id isn't used again within 400 seconds (RFC 7252, section 4.4).
pub fn ids_rest()
    ensures { IdsRest }
{}

/// The outstanding request is the last one that was sent (RFC 7252, section 4.7).
pub fn last_is_outstanding()
    ensures { LastIsOutstanding }
{}

/// A retransmission is the last request, byte for byte, less than 93 seconds after it was sent first (RFC 7252, section
/// 4.8.2, MAX_TRANSMIT_WAIT).
pub fn last_is_retransmitted()
    ensures { LastIsRetransmitted }
{}

/// The ids of the first 65,536 requests differ, however long they take (RFC 7252, section 4.4).
pub fn ids_differ()
    ensures { IdsDiffer }
{}

/// An ask that is allowed is sent as a message (RFC 7252, section 3).
pub fn asks_are_messages()
    ensures { AsksAreMessages }
{}

/// A registration has a token that no request before it had, and is observed while it is outstanding, until a first value
/// comes. Any other request has such a token too, or that of the observation (RFC 7252, section 5.3.1; RFC 7641, sections
/// 3.1 and 3.6).
pub fn registrations_have_tokens()
    ensures observed { RegistrationIsObserved }
    ensures token { TokenIsNewOrObserved }
    ensures differ { RegistrationsDiffer }
    ensures value { NoValueYet }
{}
