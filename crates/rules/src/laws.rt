// The laws of the rules: each function's contract states some, and there is nothing else to it.
ghost use Rattle.std.specs.Prelude.{ℕ, List};
ghost use Rattle.formats.specs.Forms.{Form};
ghost use Rattle.rules.specs.RuleLaws.{LeadTold, LuhnTold, Examples};

// Which codes each rule says yes to, and some answers.
pub fn rules_tell_codes()
    ensures lead { (f : Form) (c : List ℕ) → LeadTold f c }
    ensures luhn { (f : Form) (c : List ℕ) → LuhnTold f c }
    ensures examples { (rounds : ℕ) → Examples rounds }
{}
