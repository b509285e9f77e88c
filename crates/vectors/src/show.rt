// How a box is printed.
use coins::sbox::Sbox;
use std::fmt;

// The entries of a box, with spaces between them.
#[derive(Drop)]
pub struct Entries<'a>(pub &'a Sbox);

impl<'a> fmt::Display for Entries<'a> {
    fn fmt<W: fmt::Write>(&self, f: &mut fmt::Formatter<W>) -> fmt::Result {
        let mut separator = "";
        for entry in self.0.images() {
            write!(f, "{separator}{entry}")?;
            separator = " ";
        }
        Ok(())
    }
}
