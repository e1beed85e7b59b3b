//! Laws of admission, as contracts of functions that do nothing, since a law is proved only as a clause.

ghost use Rattle.coap_exchange.specs.Laws.{TablesFollowTheHistory, AdmittedOnce, LivingExchangesDiffer};

/// Tables judge requests as the history of requests says.
pub fn tables_follow_the_history()
    ensures { TablesFollowTheHistory }
{}

/// A duplicate within the lifetime is never admitted (RFC 7252, section 4.5).
pub fn admitted_once()
    ensures { AdmittedOnce }
{}

/// At most one admitted request that lives has a given endpoint and message ID (RFC 7252, section 4.4).
pub fn living_exchanges_differ()
    ensures { LivingExchangesDiffer }
{}
