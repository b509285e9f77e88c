// What the definitions of this crate are held to: laws in the contracts of functions.
ghost use Rattle.std.specs.Prelude.{ℕ, Bool, List};
ghost use Rattle.alphabets.specs.declared.alphabet.Alphabet.{Alphabet};
ghost use Rattle.alphabets.specs.AlphabetLaws.{OneToOne};
ghost use Rattle.alphabets.specs.RunNames.{Tells};
ghost use Rattle.formats.specs.CodeLaws.{First, BackAndForth};
ghost use Rattle.formats.specs.Forms.{Form};
ghost use Rattle.formats.specs.ShapeLaws.{Bounded, Makes, DefaultsExist, ReadsExactly, Tabled, Examples};

use alphabets::laws::alphabets_keep_their_laws;

// Symbols and bytes go one to one, and so do codes and texts; checks tell the first failure, and tell run names.
pub fn codes_keep_their_laws()
    ensures one_to_one { (a : Alphabet) → OneToOne a }
    ensures first { (test : ℕ → Bool) (xs : List ℕ) → First test xs }
    ensures back_and_forth { (f : Form) → BackAndForth f }
    ensures run_names { (name : List ℕ) → Tells name }
{
    alphabets_keep_their_laws()
}

// Shapes are made by rule and within the limits, and their texts are read exactly.
pub fn shapes_keep_their_laws()
    ensures bounded { (f : Form) → Bounded f }
    ensures made { (a : Alphabet) (n : ℕ) → Makes a n }
    ensures defaults { DefaultsExist }
    ensures read { (text : List ℕ) → ReadsExactly text }
    ensures published { Tabled }
    ensures examples { Examples }
{}
