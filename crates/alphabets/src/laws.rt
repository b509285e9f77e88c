// What the definitions of this crate are held to: laws in the contract of a function.
ghost use Rattle.std.specs.Prelude.{ℕ, List};
ghost use Rattle.alphabets.specs.declared.alphabet.Alphabet.{Alphabet};
ghost use Rattle.alphabets.specs.AlphabetLaws.{OneToOne};
ghost use Rattle.alphabets.specs.RunNames.{Tells};

// Symbols and bytes go one to one, and the test of run names tells them.
pub fn alphabets_keep_their_laws()
    ensures one_to_one { (a : Alphabet) → OneToOne a }
    ensures run_names { (name : List ℕ) → Tells name }
{}
