// The laws of layers: each function's contract states some, and there is nothing else to it.
ghost use Rattle.std.specs.Prelude.{ℕ, List};
ghost use Rattle.ciphers.specs.Meanings.{Meaning};
ghost use Rattle.formats.specs.Forms.{Form};
ghost use Rattle.layers.specs.LayerLaws.{Shortens, KeepsPrefix, Prefers, Examples};

// The shape of the rest always exists, and a layer that keeps a prefix leaves it where it stands.
pub fn prefixes_are_kept()
    ensures shorter { (p : ℕ) (f : Form) → Shortens p f }
    ensures kept { (p : ℕ) (m : Meaning) → KeepsPrefix p m }
    ensures examples { (m : Meaning) (run : List ℕ) → Examples m run }
{}

// Of two ciphers, the first that takes a shape swaps its codes and bars them.
pub fn the_first_that_takes_swaps()
    ensures { (l r : Meaning) → Prefers l r }
{}
