//! Laws of a directory, as contracts of functions that no code needs to call.

ghost use Rattle.std.specs.Prelude.{◌≡◌, List, ℕ, None, Some, if◌then◌else◌};
ghost use Rattle.std.specs.Str.{bytes_eq};
ghost use Rattle.wot_json.specs.Lookup.{member_named};
ghost use Rattle.wot_json.specs.Merge.{with_member, without_member};
ghost use Rattle.wot_json.specs.Tree.{Json};
ghost use Rattle.wot_directory.specs.Contents.{Entries};

/// A description that was put under an id is got back from there as it was put, one that was removed is gone, and the
/// description under any other id stays.
pub fn put_is_got_back()
    ensures put { (name id : List ℕ) → (description : Json) → (entries : Entries)
        → member_named name (with_member id description entries)
        ≡ (if bytes_eq name id then Some description else member_named name entries) }
    ensures removed { (name id : List ℕ) → (entries : Entries)
        → member_named name (without_member id entries)
        ≡ (if bytes_eq name id then None else member_named name entries) }
{}
