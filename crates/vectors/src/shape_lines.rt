// The lines that ask for a shape.
use crate::unanswered::Unanswered;
use crate::words;
use formats::shape::Shape;
use text::reader::Reader;

// `shape TEXT`: the alphabet's letter, the length, the rounds and the layers.
pub(crate) fn shape(rt: &HostRuntime, words: &mut Reader<'_>) -> Result<(), Unanswered> {
    let text = words::next(words)?;
    words::end(words)?;
    let shape = Shape::read(text)?;
    let letter = char::from(shape.alphabet().letter());
    let len = shape.len();
    let rounds = shape.rounds();
    let layers = shape.layers();
    println!(rt; "{letter} {len} {rounds} {layers}")?;
    Ok(())
}
