// The laws of coins: each function's contract states one, and there is nothing else to it.
ghost use Rattle.std.specs.Prelude.{ℕ, List};
ghost use Rattle.coins.specs.Boxes.{Shuffles, Tells};
ghost use Rattle.coins.specs.Draws.{FirstGives};
ghost use Rattle.coins.specs.Fair.{Fair};

// The first try that a draw accepts gives its number.
pub fn first_accepted_try_gives()
    ensures { FirstGives }
{}

// A draw is fair: the tries that it accepts are shared out equally among the numbers below its bound.
pub fn draws_are_fair()
    ensures { Fair }
{}

// A box is a permutation, whatever the coins it was made from.
pub fn boxes_are_permutations()
    ensures { Shuffles }
{}

// The test of a table tells whether it is a permutation.
pub fn test_tells_permutations()
    ensures { (table : List ℕ) → Tells table }
{}
