// Where coins come from: a source of random bits, taken a few at a time.
ghost use Rattle.std.specs.Prelude.{◌≡◌, ℕ, List};
ghost use Rattle.coins.specs.Coins.{Bits, taking, after};

use faults::fault::Fault;

// A source of coins. Each coin is a bit, and each is taken once.
pub trait Coins {
    // the coins that wait, the next one first
    ghost waiting: { Self → List ℕ };

    // Takes `count` coins, 1 to 16, and answers the number that they form, the first one highest. Refused for
    // another count, and where fewer coins wait; nothing is taken then. Every source also promises that its
    // coins are bits, and not too many to be counted.
    fn take(&mut self, count: u32) -> Result<u16, Fault>
        ensures bits { Bits (waiting self.old) }
        ensures value { result ≡ (taking count (waiting self.old)).answer }
        ensures after { waiting self.new ≡ after (taking count (waiting self.old)) (waiting self.old) };
}
