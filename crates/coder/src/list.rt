// Whole lists of calls on a new coder, made in order and answered where they stand.
ghost use Rattle.std.specs.Prelude.{◌≡◌, [], map};
ghost use Rattle.std.specs.List.{AllByRecursion};
ghost use Rattle.coder.specs.Calls.{text_of};
ghost use Rattle.coder.specs.Entries.{call_of, asks, says, bare, still, Answered};
ghost use Rattle.coder.specs.Called.{Called};
ghost use Rattle.coder.specs.Handed.{Through};
ghost use Rattle.coder.specs.Law.{OneList, TwoLists};
ghost use Rattle.coder.specs.Lists.{past};

use crate::coder::Coder;
use ciphers::cipher::FormatCipher;
use faults::fault::Fault;
use formats::shape::Shape;

// A call, with what it hands in: a case for each of the five calls. A text is swapped where it stands.
#[derive(Drop)]
pub enum Command {
    Start(u8, Vec<u8>, Shape),
    End(u8),
    Mask(u8, Vec<u8>),
    Unmask(u8, Vec<u8>),
    Restart,
}

// A call of a list, and its answer once it is made.
#[derive(Drop)]
pub struct Entry {
    pub command: Command,
    pub answer: Option<Result<(), Fault>>,
}

// Makes the calls of a list on a new coder over the cipher, in order. Each entry is answered in place, its text
// swapped or left; nothing else of the list changes.
pub fn make_calls<T: FormatCipher>(cipher: T, list: &mut [Entry]) -> Coder<T>
    ensures law { OneList (T.FormatCipher.meaning cipher) (map asks list.old) (map says list.new) }
    ensures answered { AllByRecursion Answered list.new }
    ensures kept { map still list.new ≡ map still list.old }
    ensures through { Through (T.FormatCipher.meaning cipher) result.lanes (past (map asks list.old) []) }
    ensures same { T.FormatCipher.meaning result.cipher ≡ T.FormatCipher.meaning cipher }
{
    let mut coder = Coder::new(cipher);
    for item in list.iter_mut() {
        make(&mut coder, item);
    }
    coder
}

// The same of two lists, each on a new coder of its own.
pub fn make_two_lists<S: FormatCipher, T: FormatCipher>(
    cipher: S,
    list: &mut [Entry],
    other: T,
    others: &mut [Entry],
) -> (Coder<S>, Coder<T>)
    ensures law { TwoLists (S.FormatCipher.meaning cipher) (T.FormatCipher.meaning other) (map asks list.old) (map asks others.old) (map says list.new) (map says others.new) }
    ensures answered { (AllByRecursion Answered list.new) × (AllByRecursion Answered others.new) }
    ensures kept { (map still list.new ≡ map still list.old) × (map still others.new ≡ map still others.old) }
    ensures through { (Through (S.FormatCipher.meaning cipher) result.0.lanes (past (map asks list.old) [])) × (Through (T.FormatCipher.meaning other) result.1.lanes (past (map asks others.old) [])) }
    ensures same { (S.FormatCipher.meaning result.0.cipher ≡ S.FormatCipher.meaning cipher) × (T.FormatCipher.meaning result.1.cipher ≡ T.FormatCipher.meaning other) }
{
    let first = make_calls(cipher, list);
    let second = make_calls(other, others);
    (first, second)
}

// Makes one call.
fn call<T: FormatCipher>(coder: &mut Coder<T>, command: &mut Command) -> Result<(), Fault>
    ensures called { Called T.FormatCipher.meaning coder.old coder.new (call_of command.old) (record { answer = result; text = text_of (call_of command.new) }) }
    ensures kept { bare (call_of command.new) ≡ bare (call_of command.old) }
{
    match command {
        Command::Start(lane, run, shape) => coder.start(*lane, run, shape),
        Command::End(lane) => coder.end(*lane),
        Command::Mask(lane, text) => coder.mask(*lane, text),
        Command::Unmask(lane, text) => coder.unmask(*lane, text),
        Command::Restart => {
            coder.restart();
            Ok(())
        }
    }
}

// Makes the call of an entry, and answers it.
fn make<T: FormatCipher>(coder: &mut Coder<T>, item: &mut Entry)
    ensures called { Called T.FormatCipher.meaning coder.old coder.new (asks item.old) (says item.new) }
    ensures answered { Answered item.new }
    ensures kept { still item.new ≡ still item.old }
{
    let answer = call(coder, &mut item.command);
    item.answer = Some(answer);
}
