//! Laws of the definition of a resolved model, as contracts of functions that no code needs to call.

ghost use Rattle.std.specs.Prelude.{◌≡◌, ◌↔◌, ◌≤◌, ℕ, List, [], true, false, length, Err};
ghost use Rattle.tm_parts.specs.Library.{Models};
ghost use Rattle.tm_parts.specs.Sources.{Sources, sources_of};
ghost use Rattle.tm_parts.specs.Substitution.{Values};
ghost use Rattle.tm_parts.specs.declared.reference.Reference.{Reference};
ghost use Rattle.tm_resolve.specs.OwnLinks.{PartsAreOrdered, LinksAreOwn};
ghost use Rattle.tm_resolve.specs.Resolution.{resolved_model};
ghost use Rattle.tm_resolve.specs.Room.{SaysTheSame};
ghost use Rattle.tm_resolve.specs.Things.{root_things, most_things};
ghost use Rattle.tm_resolve.specs.Weight.{most_entries, expansion, is_too_large};
ghost use Rattle.tm_resolve.specs.declared.fault.ResolveFault.TheVariants.{At};
ghost use Rattle.tm_resolve.specs.declared.fault.ResolveKind.TheVariants.{TooLarge};

/// A model is answered to be too large exactly where its expansion passes a limit, and then with its own URL and the
/// empty pointer.
pub fn too_large_is_exact()
    ensures { (models : Models) → (values : Values) → (root url place : List ℕ)
        → (resolved_model models values root ≡ Err (At TooLarge url place))
        ↔ ((is_too_large (expansion (sources_of models values) root) ≡ true) × (url ≡ root) × (place ≡ [])) }
{}

/// The value of a model that isn't too large and its faults don't depend on the limit on chains: with
/// more room they are the same.
pub fn room_is_enough()
    ensures { (sources : Sources) → (root : List ℕ) → is_too_large (expansion sources root) ≡ false
        → (room : ℕ) → most_entries ≤ room → SaysTheSame sources root room }
{}

/// The links of a resolved model that has a list of them are its own, each at its own index, with its references
/// brought in. So what is known of a model's links by their indices is known of those of its value.
pub fn links_are_the_models_own()
    ensures { (sources : Sources) → PartsAreOrdered sources → (room : ℕ) → (chain : List Reference)
        → (target : Reference) → LinksAreOwn sources room chain target }
{}

/// A root that isn't too large has at most 131,072 Things: each is visited, and weighs 2 at least.
pub fn things_are_few()
    ensures { (sources : Sources) → (root : List ℕ) → is_too_large (expansion sources root) ≡ false
        → length (root_things sources root) ≤ most_things }
{}
