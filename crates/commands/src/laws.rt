// What the definitions of this crate are held to: laws in the contract of a function.
ghost use Rattle.commands.specs.Laws.{ByWords, Readable, Unreadable};

// Lines are read by their words alone, and the examples as they should be.
pub fn lines_are_read_by_words()
    ensures words { ByWords }
    ensures readable { Readable }
    ensures unreadable { Unreadable }
{}
