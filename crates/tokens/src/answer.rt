// What a line is answered.
use crate::request::Request;
use block_cipher::cmac::Cmac;
use ciphers::fast::Fast;
use ciphers::key_pool::key_pool;
use ciphers::way::{Way, swap};
use faults::fault::Fault;
use formats::code;
use formats::shape::Shape;
use pools::pool::{Origin, Pool};
use std::alloc::{AllocError, Global};
use thiserror::Error;

// How a pool file begins: its mark and its version.
const MARK: &[u8] = b"BXP\x00\x01";

// Why a line has no answer.
#[derive(Debug, Drop, Error)]
pub(crate) enum Unanswered {
    #[error("{0}")]
    Refused(#[from] Fault),
    #[error(transparent)]
    Memory(#[from(alloc)] AllocError),
}

// The masked code, and what unmasking it gives.
pub(crate) fn answer(heap: Global, request: &Request<'_>) -> Result<Vec<u8>, Unanswered> {
    let shape = Shape::read(request.shape)?;
    let mut fast = network(heap, request, shape.radix())?;
    let mut code = request.code.to_vec(heap)?;
    turn(
        &mut fast,
        Way::Forward,
        &shape,
        request.run,
        code.as_mut_slice(),
    )?;
    let mut words = code.clone()?;
    turn(
        &mut fast,
        Way::Backward,
        &shape,
        request.run,
        code.as_mut_slice(),
    )?;
    words.push(b' ')?;
    words.extend_from_slice(code.as_slice())?;
    Ok(words)
}

// Swaps a text where it stands.
fn turn(
    fast: &mut Fast,
    way: Way,
    shape: &Shape,
    run: &[u8],
    text: &mut [u8],
) -> Result<(), Fault> {
    code::to_symbols(shape.alphabet(), text)?;
    swap(fast, way, shape, run, text)?;
    code::to_text(shape.alphabet(), text)
}

fn network(heap: Global, request: &Request<'_>, radix: u8) -> Result<Fast, Unanswered> {
    let mut lent = [0u8; 32];
    let made = key_pool(&Cmac::new(request.key), radix, &mut lent)?;
    let pool = match request.origin {
        Origin::Key => made,
        Origin::Given => Pool::from_file(pool_file(heap, &made)?.as_slice())?,
    };
    Ok(Fast::new(pool, request.key))
}

// The boxes of a pool as a pool file. The pool's table has each box twice in a row, and the file once.
fn pool_file(heap: Global, pool: &Pool) -> Result<Vec<u8>, AllocError> {
    let radix = usize::from(pool.radix());
    let mut file = MARK.to_vec(heap)?;
    file.push(pool.radix())?;
    for entries in pool.forward().chunks_exact(radix).step_by(2).take(256) {
        file.extend_from_slice(entries)?;
    }
    Ok(file)
}
