// What the definitions of this crate are held to: laws in the contracts of functions.
ghost use Rattle.std.specs.Prelude.{ℕ, List};
ghost use Rattle.keys.specs.Distances.{Rooted};
ghost use Rattle.keys.specs.Encodings.{Purpose, Apart, Worked};
ghost use Rattle.keys.specs.Sequences.{InOrder};

// Two lists are encoded alike exactly when they are equal.
pub fn encodings_tell_lists_apart()
    ensures apart { (i j : ℕ) (p q : Purpose) → Apart i j p q }
    ensures worked { Worked }
{}

// The root that the branch distances are made of is the greatest number whose square is not above the length.
pub fn roots_are_greatest()
    ensures { (n : ℕ) → Rooted n }
{}

// The bytes of a stream are those of the counter blocks in their order.
pub fn streams_are_in_order()
    ensures { (key iv : List ℕ) (n : ℕ) → InOrder key iv n }
{}
