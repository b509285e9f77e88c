// Run names: 1 to 32 bytes, each from 33 to 126.
ghost use Rattle.std.specs.Prelude.{◌≡◌, true, false, MatchResult};
ghost use Rattle.faults.specs.declared.fault.Cause.TheVariants.{RunName as IllegalName};
ghost use Rattle.std.specs.List.{list_all};
ghost use Rattle.faults.specs.Faults.{own};
ghost use Rattle.alphabets.specs.RunNames.{legal, printable, name_verdict};

use faults::fault::{Cause, Fault};

// Bytes that are a run name.
#[derive(Clone, Copy)]
pub struct RunName<'a> {
    bytes: &'a [u8],
    ghost legal: { legal bytes.now ≡ true },
}

impl<'a> RunName<'a> {
    // The run name that bytes are. What is no run name is refused.
    pub fn new(bytes: &'a [u8]) -> Result<RunName<'a>, Fault>
        ensures { MatchResult result (λ name. (name.bytes.now ≡ bytes.now) × (legal bytes.now ≡ true)) (λ fault. (fault ≡ own IllegalName) × (legal bytes.now ≡ false)) }
    {
        check(bytes)?;
        Ok(RunName { bytes })
    }

    pub fn as_bytes(&self) -> &'a [u8]
        ensures { result.now ≡ self.now.bytes.now }
    {
        self.bytes
    }
}

// Is it a run name?
pub fn is_legal(name: &[u8]) -> bool
    ensures { result ≡ legal name.now }
{
    (1..=32).contains(&name.len()) && all_printable(name)
}

// The same as a verdict: what is no run name is refused.
pub fn check(name: &[u8]) -> Result<(), Fault>
    ensures { result ≡ name_verdict name.now }
{
    if is_legal(name) {
        Ok(())
    } else {
        Err(Fault::own(Cause::RunName))
    }
}

fn all_printable(name: &[u8]) -> bool
    ensures { result ≡ list_all printable name.now }
{
    name.iter().all(|b| is_printable(*b))
}

// Is it a byte that shows: neither a control byte, a space, nor above 126?
fn is_printable(byte: u8) -> bool
    ensures { result ≡ printable byte }
{
    matches!(byte, 33..=126)
}
