// Draws a number below a bound, each as likely as any other.
ghost use Rattle.std.specs.Prelude.{◌≡◌, ◌^◌, ◌<◌, ◌≤◌, IfOk, OnOk};
ghost use Rattle.coins.specs.Coins.{Bits, after, counted};
ghost use Rattle.coins.specs.Draws.{width, given_by, drawing};

use crate::source::Coins;
use faults::fault::{Cause, Fault};

// Draws a number below `bound`, which is 2 to 4,096, and answers it with the number of coins taken. A try
// takes a few more coins than the bound has bits, and is either accepted or rejected; the draw goes on until a
// try is accepted or the coins are too few for another. The coins of rejected tries stay taken.
pub fn draw_below<C: Coins>(coins: &mut C, bound: u16) -> Result<(u16, u128), Fault>
    ensures value { result ≡ counted (drawing bound (C.waiting coins.old)) }
    ensures after { C.waiting coins.new ≡ after (drawing bound (C.waiting coins.old)) (C.waiting coins.old) }
    ensures bits { OnOk result (Bits (C.waiting coins.old)) }
    ensures below { IfOk result (λ drawn. drawn.0 < bound) }
{
    if bound < 2 || bound > 4096 {
        return Err(Fault::own(Cause::Range));
    }
    let count = try_width(bound);
    let mut taken = 0u128;
    loop {
        let v = coins.take(count).map_err(Fault::passed_up)?;
        taken += u128::from(count);
        if let Some(number) = given_by(v, bound, count) {
            return Ok((number, taken));
        }
    }
}

// The number that a try gives, where it is accepted.
fn given_by(v: u16, bound: u16, count: u32) -> Option<u16>
    requires bound { (2 ≤ bound) × (bound ≤ 4096) }
    requires count { count ≡ width bound }
    requires coins { v < 2 ^ count }
    ensures { result ≡ given_by bound v }
{
    let bound = u32::from(bound);
    let whole = 1u32 << count;
    let product = u32::from(v) * bound;
    if product % whole < whole % bound {
        return None;
    }
    Some((product / whole) as u16)
}

// How many coins a try takes.
fn try_width(bound: u16) -> u32
    requires { (2 ≤ bound) × (bound ≤ 4096) }
    ensures { result ≡ width bound }
{
    bound.next_power_of_two().ilog2() + 4
}
