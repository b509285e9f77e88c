// What a pool answers.
ghost use Rattle.std.specs.Prelude.{◌≡◌};

use crate::pool::{Origin, Pool};

impl Pool {
    // Where its coins came from.
    pub fn origin(&self) -> Origin
        ensures { result ≡ self.now.origin }
    {
        self.origin
    }

    // How many symbols each box permutes.
    pub fn radix(&self) -> u8
        ensures { result ≡ self.now.radix }
    {
        self.radix
    }

    // The table of the boxes.
    pub fn forward(&self) -> &[u8; 32768]
        ensures { result.now ≡ self.now.forward }
    {
        &self.forward
    }

    // The table of the inverses.
    pub fn inverse(&self) -> &[u8; 32768]
        ensures { result.now ≡ self.now.inverse }
    {
        &self.inverse
    }
}
