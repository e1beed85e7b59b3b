//! Laws of the server, as contracts of functions that do nothing, since a law is proved only as a clause.

ghost use Rattle.std.specs.Prelude.{◌≡◌};
ghost use Rattle.coap_bind.specs.Duplicates.{OnlyConfirmableAreKept, DuplicatesChangeNothing, DuplicatesGetTheFirstReply, OnlyTheFirstReplyIsRepeated};
ghost use Rattle.coap_bind.specs.Histories.{HearingGoesOn, AskedIsAdmitted};
ghost use Rattle.coap_bind.specs.Laws.{ExchangesAreOfTheHistory, DuplicatesAskNothing, AsksAreOpen, RepliesFit};
ghost use Rattle.coap_bind.specs.Messages.{RepliesAreMessages, LinksAreMessages, NotificationsAreMessages};
ghost use Rattle.coap_bind.specs.Transfers.{AnswersLeaveTheParts, NoWholeBodyStays, RequestsWithoutBlocksAct};
ghost use Rattle.coap_bind.specs.Treating.{AllAreTreated};

use crate::links::LINK_FORMAT;
use crate::portion::{LARGEST_SZX, LONGEST_BODY};

/// The exchanges of a server are those of the admitted requests that live (RFC 7252, section 4.5).
pub fn exchanges_are_of_the_history()
    ensures { ExchangesAreOfTheHistory }
{}

/// A duplicate of a request that was admitted and lives asks for nothing (RFC 7252, section 4.5).
pub fn duplicates_ask_nothing()
    ensures { DuplicatesAskNothing }
{}

/// Only replies to Confirmable requests are kept (RFC 7252, section 4.2).
pub fn only_confirmable_are_kept()
    ensures { OnlyConfirmableAreKept }
{}

/// While a request lives that was replied to, each Confirmable duplicate of it gets exactly the bytes that were sent
/// first, where it was Confirmable itself, and every other duplicate nothing; and nothing else changes (RFC 7252,
/// section 4.5).
pub fn duplicates_get_the_first_reply()
    ensures { DuplicatesGetTheFirstReply }
{}

/// A duplicate of a request that was admitted and lives changes neither the exchanges that live nor the observers nor
/// the next message ID (RFC 7252, section 4.5).
pub fn duplicates_change_nothing()
    ensures { DuplicatesChangeNothing }
{}

/// A duplicate only gets the bytes that were sent first in reply to its request, and both are Confirmable: one of a
/// request that wasn't replied to gets nothing (RFC 7252, section 4.5).
pub fn only_the_first_reply_is_repeated()
    ensures { OnlyTheFirstReplyIsRepeated }
{}

/// The ask of a datagram may be answered at once: its exchange has no reply yet, and the request is of the type that was
/// admitted.
pub fn asks_are_open()
    ensures { AsksAreOpen }
{}

/// A reply has at most 1,152 bytes (RFC 7252, section 4.6), with a tag and without, whatever the observers are, in
/// blocks and whole, unless the place of a started action is long.
pub fn replies_fit()
    ensures { RepliesFit }
{}

/// The history of a server goes on by each datagram that it hears, and its table is at no later moment (RFC 7252,
/// section 4.5).
pub fn hearing_goes_on()
    ensures { HearingGoesOn }
{}

/// The ask of a datagram is the request in it, which is admitted now (RFC 7252, section 4.5).
pub fn asked_is_admitted()
    ensures { AskedIsAdmitted }
{}

/// The treatment of a datagram, case by case: the exchanges and the observers afterwards, and the bytes that are sent
/// back.
pub fn all_are_treated()
    ensures { AllAreTreated }
{}

/// A request that names no block and isn't for the links is asked as it is, or is out of memory: it is never answered from
/// a body that is kept, and never comes to the parts (RFC 7959, sections 2.4 and 2.5).
pub fn requests_without_blocks_act()
    ensures { RequestsWithoutBlocksAct }
{}

/// Between two calls no body that is whole stands among the parts (RFC 7959, section 2.5), and an answer leaves them.
pub fn no_whole_body_stays()
    ensures stays { NoWholeBodyStays }
    ensures answers { AnswersLeaveTheParts }
{}

/// Replies and notifications are messages (RFC 7252, section 3).
pub fn sent_are_messages()
    ensures replies { RepliesAreMessages }
    ensures links { LinksAreMessages }
    ensures notifications { NotificationsAreMessages }
{}

/// The constants of replies as numbers: the format of the links (RFC 6690, section 7.4), the size exponent of the largest
/// block (RFC 7959, section 2.2), and the most bytes of a body.
pub fn constants_are_these()
    ensures link_format { LINK_FORMAT ≡ 40 }
    ensures largest_szx { LARGEST_SZX ≡ 6 }
    ensures longest_body { LONGEST_BODY ≡ 65536 }
{}
