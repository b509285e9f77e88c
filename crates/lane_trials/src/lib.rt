// The law over every list of calls at work, over ciphers that exist.
#![tactic(auto)]

ghost use Rattle.std.specs.Prelude.{◌≡◌, MatchResult};
ghost use Rattle.ciphers.specs.Held.{network_of};
ghost use Rattle.ciphers.specs.Networks.{networked};
ghost use Rattle.codebook.specs.Books.{meaning_of};
ghost use Rattle.codebook.specs.Codebooks.{book};
ghost use Rattle.faults.specs.declared.fault.Cause.TheVariants.{Range};
ghost use Rattle.faults.specs.Faults.{own};
ghost use Rattle.layers.specs.Keeps.{Keepable};
ghost use Rattle.rules.specs.Rules.{leads_nonzero};
ghost use Rattle.walk.specs.Walks.{walking};
ghost use Rattle.lane_trials.specs.DeepPile.{piled};
ghost use Rattle.lane_trials.specs.Made.{Made, BothMade};

use ciphers::fast::Fast;
use codebook::book::Codebook;
use coder::list::{Entry, make_calls, make_two_lists};
use faults::fault::Fault;
use layers::first_of::FirstOf;
use layers::keep_prefix::KeepPrefix;
use rules::luhn::Luhn;
use rules::nonzero_lead::NonzeroLead;
use walk::cycle::CycleWalk;

// Lanes over a codebook, walked until the first symbol is not 0.
pub fn codebook_lanes(codebook: Codebook, list: &mut [Entry])
    ensures { Made (walking (meaning_of (book codebook)) leads_nonzero) list.old list.new }
{
    let _ = make_calls(CycleWalk::new(codebook, NonzeroLead), list);
}

// Lanes over the FAST network.
pub fn network_lanes(network: Fast, list: &mut [Entry])
    ensures { Made (networked (network_of network)) list.old list.new }
{
    let _ = make_calls(network, list);
}

// Lanes over a deep pile: the first symbols stay, and the rest goes through a codebook walked by its check digit or,
// where that does not take it, through the network; all of it walked until the first symbol is not 0. A number of
// symbols that cannot stay is refused, and no call is made.
pub fn pile_lanes(
    kept: u8,
    codebook: Codebook,
    network: Fast,
    list: &mut [Entry],
) -> Result<(), Fault>
    ensures { MatchResult result (λ _. Keepable kept × Made (piled kept (book codebook) (network_of network)) list.old list.new) (λ fault. (fault ≡ own Range) × (Keepable kept → ⊥) × (list.new ≡ list.old)) }
{
    let pair = FirstOf::new(CycleWalk::new(codebook, Luhn), network);
    let keep = KeepPrefix::new(kept, pair)?;
    let _ = make_calls(CycleWalk::new(keep, NonzeroLead), list);
    Ok(())
}

// Two packhouses, one over the network and one over a walked codebook, each with its own list.
pub fn two_packhouses(network: Fast, list: &mut [Entry], codebook: Codebook, others: &mut [Entry])
    ensures { BothMade (networked (network_of network)) (walking (meaning_of (book codebook)) leads_nonzero) list.old list.new others.old others.new }
{
    let walk = CycleWalk::new(codebook, NonzeroLead);
    let _ = make_two_lists(network, list, walk, others);
}
