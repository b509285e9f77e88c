// FAST's core on a code where it stands.
ghost use Rattle.std.specs.Prelude.{◌≡◌, ◌+◌, ◌-◌, ◌≤◌, ◌++◌, length, replicate};
ghost use Rattle.ciphers.specs.Cores.{core};
ghost use Rattle.ciphers.specs.Layers.{Symbols};

use crate::boxes::Boxes;
use crate::reach::Reach;
use crate::way::Way;
use crate::window;
use pools::pool::Pool;

// The core of a list of indices, one way or the other.
pub(crate) fn swap_code(pool: &Pool, way: Way, indices: &[u8], reach: Reach, code: &mut [u8])
    requires few { length indices.now ≤ 2048 }
    requires symbols { Symbols pool.now.radix reach.len code.old }
    ensures { code.new ≡ core way pool.now reach.w reach.v indices.now code.old }
{
    let n = indices.len();
    match way {
        Way::Forward => {
            let mut window = opened(code, 0);
            window::encrypt(Boxes::of(pool), reach, indices, &mut window);
            code.copy_from_slice(&window[n..n + reach.len]);
        }
        Way::Backward => {
            let mut window = opened(code, n);
            window::decrypt(Boxes::inverses(pool), reach, indices, &mut window);
            code.copy_from_slice(&window[..reach.len]);
        }
    }
}

// A window with the code at a place, and zeros around it.
fn opened(code: &[u8], from: usize) -> [u8; 2080]
    requires { (length code.now ≤ 32) × (from ≤ 2048) }
    ensures { result ≡ replicate from 0 ++ (code.now ++ replicate (2080 - (from + length code.now)) 0) }
{
    let mut window = [0u8; 2080];
    window[from..from + code.len()].copy_from_slice(code);
    window
}
