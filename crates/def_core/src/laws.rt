//! Laws of the definitions.
ghost use Rattle.std.specs.Prelude.{◌≡◌, true};
ghost use Rattle.rb_value.specs.declared.key.Key.{Key};
ghost use Rattle.rb_value.specs.Key.{same_key};

/// Two keys of a Hash are the same where they are equal, and nowhere else.
#[tactic(auto, using(crate::proofs::Keys::same_is, crate::proofs::Keys::is_same))]
pub fn laws_of_keys()
    ensures equal { (a b : Key) → same_key a b ≡ true → a ≡ b }
    ensures same { (a b : Key) → a ≡ b → same_key a b ≡ true }
{}
