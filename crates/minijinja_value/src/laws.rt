//! Laws of the definitions of values: maps have distinct keys, and equality is an equivalence.
ghost use Rattle.std.specs.Prelude.{◌≡◌, List, true};
ghost use Rattle.minijinja_value.specs.ValueContents.{Contents, Pairs};
ghost use Rattle.minijinja_value.specs.ValueComparison.{equals};
ghost use Rattle.minijinja_value.specs.ValueFunctions.{put, built};
ghost use Rattle.minijinja_value.specs.MapLaws.{HasDistinctKeys, HasDistinctKeysThroughout};

/// No two keys of a map that is built are equal, and putting a pair keeps it so.
pub fn keys_are_distinct()
    ensures put { (k v : Contents) (ps : Pairs) → HasDistinctKeys ps → HasDistinctKeys
        (put k v ps) }
    ensures built { (ps : List (Contents × Contents)) → HasDistinctKeys (built ps) }
{}

/// Equality is an equivalence, where no map has two equal keys.
pub fn equality_is_an_equivalence()
    ensures itself { (a : Contents) → equals a a ≡ true }
    ensures symmetric { (a b : Contents) → HasDistinctKeysThroughout a → HasDistinctKeysThroughout b
        → equals a b ≡ equals b a }
    ensures chain { (a b c : Contents) → equals a b ≡ true → equals b c ≡ true → equals a c ≡ true }
{}
