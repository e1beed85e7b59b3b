//! Laws of observers, as contracts of functions that do nothing, since a law is proved only as a clause.

ghost use Rattle.coap_observe.specs.Accounts.{NotificationsGoToTheRegistered, NotificationsAreInOrder};
ghost use Rattle.coap_observe.specs.Laws.{OneUnacknowledged, PairsDiffer, GivenUpLeavesNone, ResetForgets, AbsentStays, NothingForAbsent, NumbersRise, RegistrationsSayIt, NotificationsSayIt, AtMostFiveSendings, SendsTheSame, DueAreGone};

/// At most one notification to an endpoint is unacknowledged at a time (RFC 7641, section 4.5.1).
pub fn one_is_unacknowledged()
    ensures { OneUnacknowledged }
{}

/// At most one observer has a given endpoint and token (RFC 7641, section 4.1).
pub fn pairs_differ()
    ensures { PairsDiffer }
{}

/// An endpoint that is given up has no observer left (RFC 7641, section 4.5).
pub fn given_up_leaves_none()
    ensures { GivenUpLeavesNone }
{}

/// A Reset takes the observer away, which stays away until it is registered again, and until then nothing is sent to it
/// (RFC 7641, section 3.6).
pub fn reset_forgets()
    ensures forgets { ResetForgets }
    ensures stays { AbsentStays }
    ensures nothing { NothingForAbsent }
{}

/// While an observer stays, its sequence numbers rise by one, and registrations and notifications say them (RFC 7641,
/// section 3.4).
pub fn numbers_rise()
    ensures rise { NumbersRise }
    ensures registrations { RegistrationsSayIt }
    ensures notices { NotificationsSayIt }
{}

/// While nothing answers a notification, and its observer isn't registered or cancelled anew, it is sent at most five
/// times: each further time the same message, or a new one where its target has a newer value. Then all observers of
/// its endpoint are gone (RFC 7641, section 4.5).
pub fn sent_five_times()
    ensures five { AtMostFiveSendings }
    ensures same { SendsTheSame }
    ensures gone { DueAreGone }
{}

/// A notification goes to an observer that registered for its target. To one that registered once notifications go in
/// the order of their numbers, and say the values of their target in order (RFC 7641, sections 3.4 and 4.5).
pub fn notifications_are_in_order()
    ensures registered { NotificationsGoToTheRegistered }
    ensures order { NotificationsAreInOrder }
{}
