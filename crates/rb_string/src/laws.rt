//! What the definitions of parts come to.
ghost use Rattle.std.specs.Prelude as prelude;
ghost use Rattle.std.specs.Prelude.{◌≡◌, ◌==◌, ℕ, not, true, length};
ghost use Rattle.std.specs.List.{join_by, list_all};
ghost use Rattle.memchr.specs.Find.{matches};
ghost use Rattle.rb_string.specs.Parts.{text_of, parts_between};
ghost use Rattle.rb_string.specs.Substitution.{expanded, with_each};

/// What stands between the places of a separator: joined by it, the parts are the text again, and joined by another
/// text without a backslash they are what `gsub` gives.
pub fn laws_of_parts()
    ensures rejoined { (text separator : prelude.List ℕ)
        → join_by (text_of text) separator (parts_between text separator) ≡ text }
    ensures substituted { (text pattern new : prelude.List ℕ)
        → with_each text (length pattern) (λ at. new) 0 (matches text pattern 0)
        ≡ join_by (text_of text) new (parts_between text pattern) }
    ensures plain { (text : prelude.List ℕ) (at n : ℕ) (new : prelude.List ℕ) → list_all (λ b. not (b == 92)) new ≡ true
        → expanded text at n new ≡ new }
{}
