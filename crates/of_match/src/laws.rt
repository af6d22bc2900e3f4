//! Laws of matches and keys, each the contract of a function that does nothing.

ghost use Rattle.std.specs.Prelude.{◌≡◌, ℕ, List};
ghost use Rattle.std.specs.Ordering.{nat_cmp};
ghost use Rattle.of_match.specs.declared.fields.Fields.{Fields};
ghost use Rattle.of_match.specs.declared.flow_match.Match.{Match};
ghost use Rattle.of_match.specs.declared.key.Key.{Key};
ghost use Rattle.of_match.specs.Fields.{fields_of, bytes_of, IsFields};
ghost use Rattle.of_match.specs.Match.{match_of, fields_in};
ghost use Rattle.of_match.specs.Key.{key_cmp, key_number, IsKey};

/// Decoding what a match was encoded as gives that match again.
pub fn decode_after_encode()
    ensures { (m : Match) → match_of (bytes_of (fields_in m)) ≡ m }
{}

/// What a match has are fields within their widths, and each such choice of fields is a match.
pub fn fields_of_matches()
    ensures within { (m : Match) → IsFields (fields_in m) }
    ensures all { (f : Fields) → IsFields f → fields_in (match_of (bytes_of f)) ≡ f }
{}

/// Bytes that differ in ignored bits alone are one match, and matches with the same fields are one match.
pub fn one_normal_form()
    ensures bytes { (a b : List ℕ) → fields_of a ≡ fields_of b → match_of a ≡ match_of b }
    ensures fields { (m n : Match) → fields_in m ≡ fields_in n → m ≡ n }
{}

/// Keys ascend as their numbers do, and no two keys share a number.
pub fn numbers_of_keys()
    ensures order { (a b : Key) → IsKey a → IsKey b → nat_cmp (key_number a) (key_number b) ≡ key_cmp a b }
    ensures one { (a b : Key) → IsKey a → IsKey b → key_number a ≡ key_number b → a ≡ b }
{}
