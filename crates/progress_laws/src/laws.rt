//! Laws over whole runs.

ghost use Rattle.progress_laws.specs.Progress.{EmissionsCanBeDelivered, EventsCanEnd, StreamsGoOn};
ghost use Rattle.progress_laws.specs.Waits.{WaitsEnd};

/// Each request that waits is replied to with what its target was given at the first delivery of it after it came, or with
/// 204 at the end of the first event at which 60,000 ms have passed since; or its connection was opened anew, ended, or
/// closed because bytes came behind the request, and nothing is sent for it; or it waits on, and it isn't late. So where the
/// moments of events are at most 1,000 ms apart none waits for 61,000 ms.
pub fn waits_end()
    ensures { WaitsEnd }
{}

/// Whatever followed from an event of a run, the event can be ended.
pub fn events_can_end()
    ensures { EventsCanEnd }
{}

/// Whatever is emitted in a run can be delivered.
pub fn emissions_can_be_delivered()
    ensures { EmissionsCanBeDelivered }
{}

/// Something can be taken from a connection, or nothing is left to take, where it is decided of all bytes whether they are a
/// request head.
pub fn streams_go_on()
    ensures { StreamsGoOn }
{}
