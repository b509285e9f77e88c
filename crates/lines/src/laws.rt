// What the definitions of this crate are held to: a law in the contract of a function.
ghost use Rattle.lines.specs.Spoken.{Spoken};

// The lines that are printed are the reference machine's replies to the list of calls that lines spell.
pub fn lines_speak_for_the_machine()
    ensures { Spoken }
{}
