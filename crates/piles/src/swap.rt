// Swaps by piles: each call puts layers over layers over a cipher, and masks a code, which is the way forward, or
// unmasks it, which is the way back.
ghost use Rattle.std.specs.Prelude.{◌≡◌};
ghost use Rattle.formats.specs.Shapes.{form};
ghost use Rattle.ciphers.specs.Held.{network_of};
ghost use Rattle.ciphers.specs.Swaps.{swap, answer, left};
ghost use Rattle.ciphers.specs.Ways.{map_of};
ghost use Rattle.codebook.specs.Codebooks.{book};
ghost use Rattle.piles.specs.Piles.{if_keepable, nonzero_over_kept_pile, kept_over_first_pile, over_first_pile, nonzero_over_luhn_pile};

use ciphers::fast::Fast;
use ciphers::way::{Way, swap};
use codebook::book::Codebook;
use faults::fault::Fault;
use formats::shape::Shape;
use layers::first_of::FirstOf;
use layers::keep_prefix::KeepPrefix;
use rules::luhn::Luhn;
use rules::nonzero_lead::NonzeroLead;
use rules::rule::Rule;
use walk::cycle::CycleWalk;

// By a walk to codes that do not begin with 0, over a kept prefix, over the network. Refused by itself where the
// symbols that stay are not 1 to 31.
#[tactic(auto, using(crate::proofs::Piled::keepable, crate::proofs::Piled::unkeepable))]
pub fn nonzero_over_kept(
    way: Way,
    kept: u8,
    network: Fast,
    shape: &Shape,
    run: &[u8],
    code: &mut [u8],
) -> Result<(), Fault>
    ensures value { let pile = nonzero_over_kept_pile kept (network_of network) in result ≡ answer (if_keepable kept (swap pile (map_of pile way) (form shape.now) run.now code.old)) }
    ensures after { let pile = nonzero_over_kept_pile kept (network_of network) in code.new ≡ left (if_keepable kept (swap pile (map_of pile way) (form shape.now) run.now code.old)) code.old }
{
    let keep = KeepPrefix::new(kept, network)?;
    let mut walk = CycleWalk::new(keep, NonzeroLead);
    swap(&mut walk, way, shape, run, code)
}

// By a kept prefix over the first of two: a walk to codes that pass the Luhn test over one codebook, and another
// codebook. Refused by itself where the symbols that stay are not 1 to 31.
pub fn kept_over_first(
    way: Way,
    kept: u8,
    walked: Codebook,
    other: Codebook,
    shape: &Shape,
    run: &[u8],
    code: &mut [u8],
) -> Result<(), Fault>
    ensures value { let pile = kept_over_first_pile kept (book walked) (book other) in result ≡ answer (if_keepable kept (swap pile (map_of pile way) (form shape.now) run.now code.old)) }
    ensures after { let pile = kept_over_first_pile kept (book walked) (book other) in code.new ≡ left (if_keepable kept (swap pile (map_of pile way) (form shape.now) run.now code.old)) code.old }
{
    over_first(way, kept, walked, Luhn, other, shape, run, code)
}

// By a walk to codes that do not begin with 0, over a walk to codes that pass the Luhn test, over the network.
pub fn nonzero_over_luhn(
    way: Way,
    network: Fast,
    shape: &Shape,
    run: &[u8],
    code: &mut [u8],
) -> Result<(), Fault>
    ensures value { let pile = nonzero_over_luhn_pile (network_of network) in result ≡ answer (swap pile (map_of pile way) (form shape.now) run.now code.old) }
    ensures after { let pile = nonzero_over_luhn_pile (network_of network) in code.new ≡ left (swap pile (map_of pile way) (form shape.now) run.now code.old) code.old }
{
    let mut outer = walk_twice(network);
    swap(&mut outer, way, shape, run, code)
}

// The same pile, with a walk to codes that any rule allows.
fn over_first<R: Rule + Drop>(
    way: Way,
    kept: u8,
    walked: Codebook,
    rule: R,
    other: Codebook,
    shape: &Shape,
    run: &[u8],
    code: &mut [u8],
) -> Result<(), Fault>
    ensures value { let pile = over_first_pile kept (book walked) (R.Rule.allowed rule) (book other) in result ≡ answer (if_keepable kept (swap pile (map_of pile way) (form shape.now) run.now code.old)) }
    ensures after { let pile = over_first_pile kept (book walked) (R.Rule.allowed rule) (book other) in code.new ≡ left (if_keepable kept (swap pile (map_of pile way) (form shape.now) run.now code.old)) code.old }
{
    let walk = CycleWalk::new(walked, rule);
    let first = FirstOf::new(walk, other);
    let mut keep = KeepPrefix::new(kept, first)?;
    swap(&mut keep, way, shape, run, code)
}

// A walk to codes that do not begin with 0, over a walk to codes that pass the Luhn test, over the network.
pub(crate) fn walk_twice(network: Fast) -> CycleWalk<CycleWalk<Fast, Luhn>, NonzeroLead>
    ensures { result.below.below ≡ network }
{
    let inner = CycleWalk::new(network, Luhn);
    CycleWalk::new(inner, NonzeroLead)
}
