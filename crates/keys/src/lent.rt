// The 32 bytes that a caller lends for a derived key, cleared when they are given back.
ghost use Rattle.std.specs.Prelude.{◌≡◌};
ghost use Rattle.keys.specs.Derived.{cleared};

// Bytes on loan. Whoever holds them leaves zeros behind, on every way out.
pub(crate) struct Lent<'a> {
    pub(crate) bytes: &'a mut [u8; 32],
}

impl Drop for Lent<'_> {
    fn drop(self)
        ensures { self.exit.0.now ≡ cleared }
    {
        clear(self.bytes);
        let Lent { bytes: _ } = self;
    }
}

fn clear(bytes: &mut [u8; 32])
    ensures { bytes.new ≡ cleared }
{
    *bytes = [0; 32];
}
