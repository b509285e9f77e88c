// The laws of the walk: each function's contract states some, and there is nothing else to it.
ghost use Rattle.std.specs.Prelude.{ℕ, List};
ghost use Rattle.formats.specs.Forms.{Form};
ghost use Rattle.ciphers.specs.Meanings.{Meaning, Laws};
ghost use Rattle.walk.specs.CodeLists.{AllCodes};
ghost use Rattle.walk.specs.Walks.{Allowed};
ghost use Rattle.walk.specs.WalkLaws.{Walks, Examples};

// The codes of a form can be listed, each once, so that they can be counted.
pub fn codes_are_listed()
    ensures { (f : Form) → AllCodes f }
{}

// Over every cipher and with every rule, a walk leads to the first allowed code on the cycle, at most one swap more
// than there are codes that the rule denies and the cipher below does not bar; and it keeps the laws of a cipher.
pub fn walks_reach_the_first_allowed()
    ensures walks { (m : Meaning) (allowed : Allowed) → Laws m → Walks m allowed }
    ensures examples { (run : List ℕ) (rounds : ℕ) → Examples run rounds }
{}
