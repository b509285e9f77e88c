// Codes and the texts that write them: checked, and turned into one another in place.
ghost use Rattle.std.specs.Prelude.{◌≡◌, ◌<◌, ℕ, map, Ok};
ghost use Rattle.formats.specs.Codes.{stray_byte, stray_symbol, verdict, fits, as_symbols, as_bytes, code_verdict, text_verdict};
ghost use Rattle.formats.specs.Shapes.{form};

use crate::shape::Shape;
use alphabets::alphabet::Alphabet;
use faults::fault::{Cause, Fault};

// Is it a code of the shape: as long as the shape says, and each number a symbol?
#[tactic(auto, unfolding(crate::specs::Codes::code_verdict))]
pub fn check(shape: &Shape, code: &[u8]) -> Result<(), Fault>
    ensures { result ≡ code_verdict (form shape.now) code.now }
{
    check_length(shape, code)?;
    check_symbols(shape.alphabet(), code)
}

// Is it the text of a code of the shape?
#[tactic(auto, unfolding(crate::specs::Codes::text_verdict))]
pub fn check_text(shape: &Shape, text: &[u8]) -> Result<(), Fault>
    ensures { result ≡ text_verdict (form shape.now) text.now }
{
    check_length(shape, text)?;
    check_bytes(shape.alphabet(), text)
}

// Turns each byte of a text into the symbol that it writes. A text with a byte that writes none is left as it is, so
// that no 0 is ever put in place of a symbol.
#[tactic(auto, unfolding(crate::specs::Codes::as_symbols))]
pub fn to_symbols(alphabet: Alphabet, text: &mut [u8]) -> Result<(), Fault>
    ensures value { result ≡ verdict (stray_byte alphabet text.old) }
    ensures after { text.new ≡ as_symbols alphabet text.old }
{
    check_bytes(alphabet, text)?;
    change_each(text, |b| alphabet.symbol(b).unwrap_or(0));
    Ok(())
}

// Turns each symbol of a code into the byte that writes it. A code with a number that is no symbol is left as it
// is, so that no 0 is ever put in place of a byte.
#[tactic(auto, unfolding(crate::specs::Codes::as_bytes))]
pub fn to_text(alphabet: Alphabet, code: &mut [u8]) -> Result<(), Fault>
    ensures value { result ≡ verdict (stray_symbol alphabet code.old) }
    ensures after { code.new ≡ as_bytes alphabet code.old }
{
    check_symbols(alphabet, code)?;
    change_each(code, |x| alphabet.byte(x).unwrap_or(0));
    Ok(())
}

// Does each byte write a symbol?
pub fn check_bytes(alphabet: Alphabet, text: &[u8]) -> Result<(), Fault>
    ensures { result ≡ verdict (stray_byte alphabet text.now) }
{
    refuse(text.iter().position(|b| alphabet.symbol(*b).is_none()))
}

// Is each number a symbol?
pub fn check_symbols(alphabet: Alphabet, code: &[u8]) -> Result<(), Fault>
    ensures { result ≡ verdict (stray_symbol alphabet code.now) }
{
    let radix = alphabet.radix();
    refuse(code.iter().position(|x| *x >= radix))
}

// Is a code, or the text of one, as long as the shape says?
fn check_length(shape: &Shape, code: &[u8]) -> Result<(), Fault>
    ensures { result ≡ fits (form shape.now) code.now (Ok tt) }
{
    if code.len() != shape.len() as usize {
        return Err(Fault::own(Cause::CodeLength));
    }
    Ok(())
}

// Refuses for the first stray, where there is one.
fn refuse(stray: Option<usize>) -> Result<(), Fault>
    ensures { result ≡ verdict stray }
{
    match stray {
        None => Ok(()),
        Some(place) => Err(Fault::own(Cause::NotASymbol).at(place)),
    }
}

// Changes each number in place.
fn change_each<F: Fn(u8) -> u8>(xs: &mut [u8], change: F)
    requires { F.IsAlwaysCallable change }
    ensures { (f : ℕ → ℕ) → ((x y : ℕ) → x < 256 → F.post change x y → y ≡ f x) → xs.new ≡ map f xs.old }
{
    for x in xs.iter_mut() {
        *x = change(*x);
    }
}
