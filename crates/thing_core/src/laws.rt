//! Consequences of the definitions: contracts of functions that no code needs to call.

ghost use Rattle.std.specs.Prelude.{◌≡◌, [], List};
ghost use Rattle.thing_ops.specs.declared.outcome.Outcome.{Outcome};
ghost use Rattle.thing_ops.specs.Requests.{RequestSeen};
ghost use Rattle.thing_handler.specs.Handler.{Seen};
ghost use Rattle.thing_handler.specs.Turns.{HandlerCall};
ghost use Rattle.thing_site.specs.Site.{Site};
ghost use Rattle.thing_state.specs.State.{State};
ghost use Rattle.thing_site.specs.Refusals.{refused_by_schema};
ghost use Rattle.thing_core.specs.Refusals.{Stands};
ghost use Rattle.thing_core.specs.Thing.{Acts, Done};
ghost use Rattle.thing_site.specs.Fits.{Fits};
ghost use Rattle.thing_core.specs.Kept.{Kept};
ghost use Rattle.thing_core.specs.Performing.{MakesAct, MakesPolls};
ghost use Rattle.thing_core.specs.Completeness.{IsComplete};
ghost use Rattle.thing_core.specs.Determined.{IsDetermined};
ghost use Rattle.thing_core.specs.Runs.{NoWriteIsLost, OldTagsAreNotMet, PropertiesHaveVersions, SameTagSameText, TagsAreSeen, TagsDontComeAgain, TextsMakeVersions, VersionsAreFew, VersionsSeeTexts};
ghost use Rattle.thing_core.specs.Ticks.{IsSameInTurn};

/// A value that its schema refuses reaches no handler, and changes nothing.
pub fn refused_values_reach_no_handler()
    ensures { (site : Site) → (q : RequestSeen) → (done : Done) → (s t : State) → (seen : List HandlerCall)
        → Acts site q done s seen t → Stands refused_by_schema (record { site = site; state = s; request = q })
        → (seen ≡ []) × (t ≡ s) }
{}

/// A rack that the site fits before a request is one that it fits afterwards.
pub fn a_rack_fits_on()
    ensures { (old new : Kept) → (q : RequestSeen) → (o : Outcome) → (before after : List Seen)
        → MakesAct old new q o before after → Fits old.site before → Fits new.site after }
{}

/// The same of polls.
pub fn a_rack_fits_on_after_polls()
    ensures { (old new : Kept) → (before after : List Seen)
        → MakesPolls old new before after → Fits old.site before → Fits new.site after }
{}

/// A request that nothing is against, and whose devices answer in kind, has the success of its act as its outcome, but
/// where it is out of memory or the run has no number left for a turn.
pub fn requests_are_complete()
    ensures { (site : Site) → (q : RequestSeen) → IsComplete site q }
{}

/// To poll all events and to hand all emissions out afterwards is to do so event by event.
pub fn polls_are_the_same_in_turn()
    ensures { (site : Site) → IsSameInTurn site }
{}

/// The outcome of a request, what it emits, its calls and the state afterwards are determined by the state, the request
/// and the answers, where nothing is out of memory.
pub fn requests_are_determined()
    ensures { (site : Site) → (q : RequestSeen) → IsDetermined site q }
{}

/// Of each property texts are seen one after another, whatever is done: its version never falls, rises by one for each
/// text that differs from the one before, and while its number is the same, so is its text.
pub fn versions_see_texts()
    ensures sees { (site : Site) → VersionsSeeTexts site }
    ensures later { TextsMakeVersions }
{}

/// Two reads of one property in a run that send one tag send one text (RFC 9110, section 8.8.3).
pub fn one_tag_is_one_text()
    ensures { (site : Site) → SameTagSameText site }
{}

/// A write that was done and asks for the version that was read found the property as it was read (RFC 9110, section
/// 13.1.1).
pub fn no_write_is_lost()
    ensures { (site : Site) → NoWriteIsLost site }
{}

/// In every state of a run each property has a version, which is at most the number of turns after those that are left
/// out, and a tag is none of these.
pub fn versions_count_turns()
    ensures few { (site : Site) → VersionsAreFew site }
    ensures there { (site : Site) → PropertiesHaveVersions site }
    ensures tags { (site : Site) → TagsAreSeen site }
{}

/// In two runs, of which the later leaves out the versions that the earlier one left out, and as many more as any one
/// property was read and written there, no tag is sent twice (RFC 9110, section 8.8.1); and no write of the later run is
/// done that asks for a tag of the earlier one.
pub fn tags_do_not_come_again()
    ensures sent { (site later : Site) → TagsDontComeAgain site later }
    ensures asked { (site later : Site) → OldTagsAreNotMet site later }
{}
