//! Consequences of the tables: contracts of functions that no code needs to call.

ghost use Rattle.std.specs.Prelude.{◌≡◌, ◌≤◌, ◌↔◌, ◌∷◌, [], ℕ, List, codes, decimal, unwrap_or, IsTrue};
ghost use Rattle.std.specs.List.{Contains};
ghost use Rattle.thing_ops.specs.declared.allow.Allow.{Allow};
ghost use Rattle.thing_ops.specs.declared.routing.RouteKind.TheVariants as route;
ghost use Rattle.thing_ops.specs.declared.verb.Verb.{Verb};
ghost use Rattle.thing_ops.specs.declared.outcome.Outcome.{Outcome};
ghost use Rattle.thing_ops.specs.Outcomes.{payload_of, text_of, word_of};
ghost use Rattle.thing_ops.specs.Routes.{route_of};
ghost use Rattle.thing_ops.specs.Verbs.{takes, verbs_in};

/// The last segment of a path to an invocation is the spelling of its id, which is a number from 1 to 4,294,967,295,
/// and each such spelling leads to it.
pub fn invocations_are_spelled()
    ensures { (thing name id : List ℕ) → (n : ℕ)
        → (route_of (thing ∷ codes "actions" ∷ name ∷ id ∷ []) ≡ route.Invocation n)
        ↔ ((1 ≤ n) × (n ≤ 4294967295) × (id ≡ decimal n)) }
{}

/// The verbs that are taken are those that are listed.
pub fn takes_what_is_listed()
    ensures { (allow : Allow) → (verb : Verb) → IsTrue (takes allow verb) ↔ Contains (verbs_in allow) verb }
{}

/// The payload of an outcome is the text that it carries, and its word where it carries none.
pub fn payload_is_text_or_word()
    ensures { (o : Outcome) → payload_of o ≡ unwrap_or (text_of o) (word_of o) }
{}
