// A layer that keeps a prefix is made here, and here alone.
ghost use Rattle.std.specs.Prelude.{◌≡◌, MatchResult};
ghost use Rattle.faults.specs.declared.fault.Cause.TheVariants.{Range};
ghost use Rattle.faults.specs.Faults.{own};
ghost use Rattle.layers.specs.Keeps.{Keepable};

use crate::keep_prefix::KeepPrefix;
use faults::fault::{Cause, Fault};

impl<T: Drop> KeepPrefix<T> {
    // The layer that keeps the first `kept` symbols, over a cipher. Refused where they are not 1 to 31.
    pub fn new(kept: u8, below: T) -> Result<KeepPrefix<T>, Fault>
        ensures { MatchResult result (λ k. (k.kept ≡ kept) × (k.below ≡ below) × Keepable kept) (λ fault. (fault ≡ own Range) × (Keepable kept → ⊥)) }
    {
        if !(1..=31).contains(&kept) {
            return Err(Fault::own(Cause::Range));
        }
        Ok(KeepPrefix { kept, below })
    }
}
