// The network that a first line names.
ghost use Rattle.std.specs.Prelude.{◌≡◌};
ghost use Rattle.openings.specs.OpenedNetworks.{network_in, opened_network};

use alphabets::alphabet::Alphabet;
use block_cipher::cmac::Cmac;
use ciphers::fast::Fast;
use ciphers::key_pool::key_pool;
use faults::fault::Fault;

// The network of an alphabet under a key, over the pool that the key's own coins make.
pub fn open_network(alphabet: Alphabet, key: [u8; 16]) -> Result<Fast, Fault>
    ensures { network_in result ≡ opened_network alphabet key }
{
    let mac = Cmac::new(key);
    let mut lent = [0u8; 32];
    let pool = key_pool(&mac, alphabet.radix(), &mut lent)?;
    Ok(Fast::new(pool, key))
}
