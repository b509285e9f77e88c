// The laws of codebooks: each function's contract states some, and there is nothing else to it.
ghost use Rattle.std.specs.Prelude.{ℕ, List};
ghost use Rattle.formats.specs.Forms.{Form};
ghost use Rattle.codebook.specs.BookLaws.{Sound, KeepsLaws, Made, Examples};
ghost use Rattle.codebook.specs.Books.{Book};
ghost use Rattle.codebook.specs.Numbers.{Numbering};

// The codes of a length and the numbers below their count go one to one, the first symbol highest.
pub fn codes_are_numbered()
    ensures { (a n : ℕ) → Numbering a n }
{}

// A codebook takes its alphabet and length alone, and each code of them is the image of exactly one.
pub fn codebooks_permute_codes()
    ensures { (b : Book) → Sound b → KeepsLaws b }
{}

// What is made from coins is such a codebook; too many codes and too few coins are all that is refused.
pub fn codebooks_are_made()
    ensures made { (f : Form) (coins : List ℕ) → Made f coins }
    ensures examples { (f : Form) (run : List ℕ) (rounds : ℕ) → Examples f run rounds }
{}
