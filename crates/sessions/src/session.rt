// A session: what its first line opened, and the lanes over it.
ghost use Rattle.std.specs.Prelude.{◌≤◌, length};
ghost use Rattle.commands.specs.Openings.{opening};
ghost use Rattle.sessions.specs.Sessions.{LedTo, Opened};

use ciphers::fast::Fast;
use codebook::book::Codebook;
use coder::coder::Coder;
use commands::first::{First, read_first};
use faults::fault::{Cause, Fault};
use openings::book::open_book;
use openings::network::open_network;
use printing::printed::Printed;
use printing::replies::{print_fault, print_ok};
use rules::nonzero_lead::NonzeroLead;
use walk::cycle::CycleWalk;

// The lanes over what a first line opened.
#[derive(Drop)]
pub enum Session {
    // a codebook, walked to codes that do not begin with 0
    Codebook(Coder<CycleWalk<Codebook, NonzeroLead>>),
    // the network
    Network(Coder<Fast>),
}

// The session that a first line begins, unless it is refused, and the line to print for it.
#[tactic(auto, using(crate::proofs::Begun::begun, crate::proofs::Begun::refused))]
pub fn open_session(line: &[u8]) -> (Option<Session>, Printed)
    ensures opened { Opened (opening line.now) result.0 result.1 }
    ensures short { length result.1 ≤ 48 }
{
    match open(line) {
        Ok(session) => (Some(session), print_ok(None)),
        Err(fault) => (None, print_fault(None, fault)),
    }
}

// The session, or why there is none.
fn open(line: &[u8]) -> Result<Session, Fault>
    ensures { LedTo (opening line.now) result }
{
    match read_first(line).ok_or(Fault::own(Cause::Line))? {
        First::Codebook { shape, coins } => {
            let walk = open_book(shape, coins)?;
            Ok(Session::Codebook(Coder::new(walk)))
        }
        First::Network { alphabet, key } => {
            let network = open_network(alphabet, key)?;
            Ok(Session::Network(Coder::new(network)))
        }
    }
}
