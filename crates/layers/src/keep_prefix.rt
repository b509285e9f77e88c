// A layer under which the first symbols of a code stay.
ghost use Rattle.std.specs.Prelude.{◌≤◌};

mod cipher;
mod making;

// How many symbols stay, from 1 to 31, and the cipher that swaps the rest.
#[derive(Drop)]
pub struct KeepPrefix<T> {
    kept: u8,
    below: T,
    ghost some: { 1 ≤ kept },
    ghost few: { kept ≤ 31 },
}
