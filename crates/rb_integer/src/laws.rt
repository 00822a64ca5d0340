//! What the definitions of Ranges come to.
ghost use Rattle.std.specs.Prelude.{◌≡◌, ◌<◌, ℕ, Bool, true};
ghost use Rattle.rb_integer.specs.declared.ends.Bounds.{Bounds};
ghost use Rattle.rb_integer.specs.declared.ends.Item.{Item};
ghost use Rattle.rb_integer.specs.Ends.{count, item, includes};

/// What a Range includes: each of its items, counted from 0, and nothing else.
pub fn laws_of_ranges()
    ensures each { (b : Bounds) (exclusive : Bool) (k : ℕ) → k < count b exclusive
        → includes b exclusive (item b k) ≡ true }
    ensures only { (b : Bounds) (exclusive : Bool) (x : Item) → includes b exclusive x ≡ true
        → (k : ℕ) × (k < count b exclusive) × (item b k ≡ x) }
{}
