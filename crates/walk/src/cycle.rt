// A walk on the cycle of a cipher below, to the first code that a rule allows.
ghost use Rattle.std.specs.Prelude.{◌≡◌};

mod cipher;
mod steps;

// A cipher and a rule. It swaps by the cipher once or more, until the rule first says yes.
#[derive(Drop)]
pub struct CycleWalk<T, R> {
    below: T,
    rule: R,
}

impl<T, R> CycleWalk<T, R> {
    // The walk over a cipher, with a rule.
    pub fn new(below: T, rule: R) -> CycleWalk<T, R>
        ensures below { result.below ≡ below }
        ensures rule { result.rule ≡ rule }
    {
        CycleWalk { below, rule }
    }
}
