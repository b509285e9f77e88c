// A cipher that was made for a call, and what it does to the call's code.
ghost use Rattle.std.specs.Prelude.{◌≡◌};
ghost use Rattle.network_c.specs.Readies.{by_ready, walk_over};
ghost use Rattle.network_c.specs.Under.{number_in, way_of};

use crate::ffi::Run;
use crate::under::swap_under;
use ciphers::cipher::FormatCipher;
use ciphers::way::Way;
use faults::fault::Fault;
use formats::shape::Shape;
use rules::nonzero_lead::NonzeroLead;
use walk::cycle::CycleWalk;

// A cipher, and the shape of its codes.
#[derive(Drop)]
pub(crate) struct Ready<C> {
    pub(crate) cipher: C,
    pub(crate) shape: Shape,
}

impl<C: Drop> Ready<C> {
    // The walk to codes that do not begin with 0, over the cipher.
    pub(crate) fn walked(self) -> Ready<CycleWalk<C, NonzeroLead>>
        ensures { result ≡ walk_over self }
    {
        let Ready { cipher, shape } = self;
        Ready {
            cipher: CycleWalk::new(cipher, NonzeroLead),
            shape,
        }
    }
}

impl<C: FormatCipher> Ready<C> {
    // Swaps a code by the cipher, under one run after the other.
    pub(crate) fn swap(&mut self, way: Way, runs: &[Run], code: &mut [u8]) -> Result<(), Fault>
        ensures value { result ≡ (by_ready C.FormatCipher.meaning way self.old runs.now code.old).answer }
        ensures after { code.new ≡ (by_ready C.FormatCipher.meaning way self.old runs.now code.old).code }
    {
        swap_under(&mut self.cipher, way, &self.shape, runs, code)
    }
}

// A way as it crosses.
pub(crate) fn way(back: bool) -> Way
    ensures { result ≡ way_of back }
{
    if back { Way::Backward } else { Way::Forward }
}

// An answer as it crosses: the number of the cause of a refusal, or 0.
pub(crate) fn number(answer: Result<(), Fault>) -> u8
    ensures { result ≡ number_in answer }
{
    match answer {
        Ok(()) => 0,
        Err(fault) => fault.cause.number(),
    }
}
