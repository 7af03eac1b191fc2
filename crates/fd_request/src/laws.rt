// What the expansion of a request is, by numbers.
ghost use Rattle.std.specs.Prelude.{◌≡◌, ◌*◌, ◌/◌, ◌%◌, ℕ, List, ◌∷◌, length, Some, slice_get};
ghost use Rattle.fd_key.specs.Pairs.{Pair};
ghost use Rattle.fd_request.specs.{Expansion.{Keyword, expand}, Ranges.{between}, Reached.{IsRange}};

/// A request has as many keys as the product of its counts of values.
pub fn count_of_keys()
    ensures { (k : Keyword) (ks : List Keyword) → length (expand (k ∷ ks)) ≡ length k.values * length (expand ks) }
{}

/// Key i has the first keyword's value number i / n and key i % n of the others, where these have n keys.
pub fn key_by_division()
    ensures { (k : Keyword) (ks : List Keyword) (i : ℕ) (v : List ℕ) (c : List Pair) → slice_get k.values (i / length (expand ks)) ≡ Some v → slice_get (expand ks) (i % length (expand ks)) ≡ Some c → slice_get (expand (k ∷ ks)) i ≡ Some ((k.name, v) ∷ c) }
{}

/// A range `a/to/b/by/c` of a name has the values a, a+c, a+2c and so on up to b: none of them is over b, and one step more
/// would be. Days go on by the calendar.
pub fn range_to_its_end()
    ensures { (name a b c : List ℕ) (values : List (List ℕ)) → between name a b c ≡ Some values → IsRange name a b c values }
{}
