// What a lane with a run holds: the run's name and the shape, as plain numbers and bytes.
ghost use Rattle.std.specs.Prelude.{◌≤◌};

use alphabets::alphabet::Alphabet;
use alphabets::run_name::RunName;
use faults::fault::Fault;
use formats::shape::Shape;

// The first `name_len` bytes of `name` are the run's name; the shape is its three numbers. A record is copied, so it is
// plain numbers and bytes.
#[derive(Clone, Copy)]
pub struct Record {
    pub(crate) name: [u8; 32],
    pub(crate) name_len: usize,
    pub(crate) alphabet: Alphabet,
    pub(crate) len: u8,
    pub(crate) rounds: u16,
    ghost short: { name_len ≤ 32 },
}

impl Record {
    ghost use Rattle.std.specs.Prelude.{◌≡◌};
    ghost use Rattle.formats.specs.Forms.{remade};
    ghost use Rattle.formats.specs.Shapes.{form, formed};
    ghost use Rattle.coder.specs.Machine.{held_of};
    ghost use Rattle.coder.specs.Records.{named};

    // The record of a run and a shape.
    pub(crate) fn new(run: RunName<'_>, shape: &Shape) -> Record
        ensures { named result ≡ held_of run.entry.bytes.now (form shape.now) }
    {
        let run = run.as_bytes();
        let mut name = [0; 32];
        name[..run.len()].copy_from_slice(run);
        Record {
            name,
            name_len: run.len(),
            alphabet: shape.alphabet(),
            len: shape.len(),
            rounds: shape.rounds(),
        }
    }

    // The run's name.
    pub(crate) fn run(&self) -> &[u8]
        ensures { result.now ≡ (named self.now).run }
    {
        &self.name[..self.name_len]
    }

    // The shape, made again from its numbers.
    pub(crate) fn shape(&self) -> Result<Shape, Fault>
        ensures { formed result ≡ remade (named self.now).shape }
    {
        Shape::remake(self.alphabet, self.len, self.rounds)
    }
}
