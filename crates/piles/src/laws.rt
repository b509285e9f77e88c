// What piles are held to, and the worked examples: laws in the contracts of functions that do nothing else.
ghost use Rattle.std.specs.Prelude.{ℕ};
ghost use Rattle.ciphers.specs.Held.{network_of};
ghost use Rattle.ciphers.specs.Meanings.{Laws};
ghost use Rattle.ciphers.specs.declared.fast.Fast.{Fast};
ghost use Rattle.codebook.specs.Codebooks.{book};
ghost use Rattle.codebook.specs.declared.book.Codebook.{Codebook};
ghost use Rattle.piles.specs.Piles.{nonzero_over_kept_pile, kept_over_first_pile, nonzero_over_luhn_pile};
ghost use Rattle.piles.specs.WorkedExamples.{WorkedExamples};

// Each pile is a cipher: for every shape that it takes and every run, each of its two maps keeps the codes that are
// not barred, and undoes the other.
pub fn piles_undo_themselves()
    ensures nonzero_over_kept { (kept : ℕ) (network : Fast) → Laws (nonzero_over_kept_pile kept (network_of network)) }
    ensures kept_over_first { (kept : ℕ) (walked other : Codebook) → Laws (kept_over_first_pile kept (book walked) (book other)) }
    ensures nonzero_over_luhn { (network : Fast) → Laws (nonzero_over_luhn_pile (network_of network)) }
{}

// The worked examples, all together.
pub fn worked_examples_hold()
    ensures { WorkedExamples }
{}
