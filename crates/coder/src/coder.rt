// The coder: a cipher, and eight lanes that each may be under a run and a shape.
ghost use Rattle.std.specs.Prelude.{◌≡◌, true, length};
ghost use Rattle.std.specs.List.{list_all};
ghost use Rattle.coder.specs.Records.{short_run};

use crate::lane::Lane;
use crate::lanes::Lanes;
use crate::record::Record;
use alphabets::run_name::RunName;
use ciphers::checks::pass_up;
use ciphers::cipher::FormatCipher;
use ciphers::way::{Way, swap};
use faults::fault::{Cause, Fault};
use formats::code;
use formats::shape::Shape;

// Lanes are named by their numbers, 1 to 8.
#[derive(Drop)]
pub struct Coder<T> {
    cipher: T,
    lanes: Lanes,
    pub ghost eight: { length lanes ≡ 8 },
    pub ghost short: { list_all short_run lanes ≡ true },
}

impl<T: FormatCipher> Coder<T> {
    ghost use Rattle.std.specs.Prelude.{[], replicate, None, Ok};
    ghost use Rattle.formats.specs.Shapes.{form};
    ghost use Rattle.coder.specs.Calls.{starts, ends, masks, unmasks, restarts, turns};
    ghost use Rattle.coder.specs.Handed.{Through};
    ghost use Rattle.coder.specs.Called.{Called};

    // A coder over a cipher. No lane has a run.
    pub fn new(cipher: T) -> Coder<T>
        ensures cipher { result.cipher ≡ cipher }
        ensures lanes { result.lanes ≡ replicate 8 None }
        ensures through { Through (T.FormatCipher.meaning cipher) result.lanes [] }
    {
        Coder {
            cipher,
            lanes: Lanes::new(),
        }
    }

    // Gives a lane a run and a shape. Only a lane without a run takes one.
    pub fn start(&mut self, lane: u8, run: &[u8], shape: &Shape) -> Result<(), Fault>
        ensures { Called T.FormatCipher.meaning self.old self.new (starts lane run.now (form shape.now)) (record { answer = result; text = [] }) }
    {
        let lane = Lane::new(lane)?;
        let name = RunName::new(run)?;
        if self.lanes.at(lane).is_some() {
            return Err(Fault::own(Cause::LaneHasRun));
        }
        if !self.cipher.takes(shape) {
            return Err(Fault::own(Cause::ShapeNotTaken));
        }
        self.lanes.set(lane, Some(Record::new(name, shape)));
        Ok(())
    }

    // Takes a lane's run away.
    pub fn end(&mut self, lane: u8) -> Result<(), Fault>
        ensures { Called T.FormatCipher.meaning self.old self.new (ends lane) (record { answer = result; text = [] }) }
    {
        let lane = Lane::new(lane)?;
        self.lanes.running(lane)?;
        self.lanes.set(lane, None);
        Ok(())
    }

    // Swaps a text forward under its lane's run and shape, where it stands. A refused call leaves the text as it was.
    pub fn mask(&mut self, lane: u8, text: &mut [u8]) -> Result<(), Fault>
        ensures { Called T.FormatCipher.meaning self.old self.new (masks lane text.old) (record { answer = result; text = text.new }) }
    {
        self.swap(Way::Forward, lane, text)
    }

    // Swaps a text back.
    pub fn unmask(&mut self, lane: u8, text: &mut [u8]) -> Result<(), Fault>
        ensures { Called T.FormatCipher.meaning self.old self.new (unmasks lane text.old) (record { answer = result; text = text.new }) }
    {
        self.swap(Way::Backward, lane, text)
    }

    // Takes every run away. Nothing refuses it.
    pub fn restart(&mut self)
        ensures { Called T.FormatCipher.meaning self.old self.new restarts (record { answer = Ok tt; text = [] }) }
    {
        self.lanes.clear_all();
    }

    // A mask or an unmask, by its way. The shape is made again from the lane's record, and then the text is looked
    // at, before the cipher gets its symbols; they are turned back into a text whatever it answers.
    pub fn swap(&mut self, way: Way, lane: u8, text: &mut [u8]) -> Result<(), Fault>
        ensures { Called T.FormatCipher.meaning self.old self.new (turns way lane text.old) (record { answer = result; text = text.new }) }
    {
        let record = self.lanes.running(Lane::new(lane)?)?;
        // Refuses nothing in a coder that was handed on: the numbers are those of the shape that the lane started with.
        let shape = record.shape()?;
        code::check_text(&shape, text)?;
        let alphabet = shape.alphabet();
        let _ = code::to_symbols(alphabet, text);
        // The swap of any cipher, not the coder's own.
        let below = swap(&mut self.cipher, way, &shape, record.run(), text);
        let _ = code::to_text(alphabet, text);
        pass_up(below)
    }
}
