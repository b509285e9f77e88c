// A line, handed out word by word.
ghost use Rattle.std.specs.Prelude.{◌≡◌};
ghost use Rattle.std.specs.Option.{option_map};
ghost use Rattle.text.specs.Words.{first_word, later_words, words_of, SplitsAtSpaces};
ghost use Rattle.text.specs.Readers.{words_in, words_left, first_of, rest_of};

const SPACE: u8 = b' ';

// What is left of a line: nothing once the last word is handed out.
#[derive(Drop)]
pub struct Reader<'a> {
    left: Option<&'a [u8]>,
}

impl<'a> Reader<'a> {
    // A reader over a line, at its first word.
    #[tactic(auto, unfolding(crate::specs::Readers::words_left))]
    pub fn new(line: &'a [u8]) -> Reader<'a>
        ensures { words_left result ≡ words_of line.now }
    {
        Reader { left: Some(line) }
    }

    // The next word, which may be empty, or `None` once all words are handed out.
    #[tactic(auto, unfolding(crate::specs::Readers::words_left, crate::specs::Words::words_of))]
    pub fn word(&mut self) -> Option<&'a [u8]>
        ensures value { option_map (λ x. x.now) result ≡ first_of (words_left self.old) }
        ensures after { words_left self.new ≡ rest_of (words_left self.old) }
    {
        let (word, later) = parted(self.left?);
        self.left = later;
        Some(word)
    }
}

// Words are the line, taken apart at its spaces.
pub fn words_split_lines()
    ensures { SplitsAtSpaces }
{}

// The first word of a line, and what follows the space after it.
fn parted<'a>(line: &'a [u8]) -> (&'a [u8], Option<&'a [u8]>)
    ensures first { result.0.now ≡ first_word line.now }
    ensures later { words_in result.1 ≡ later_words line.now }
{
    match line.iter().position(|b| *b == SPACE) {
        Some(end) => (&line[..end], Some(&line[end + 1..])),
        None => (line, None),
    }
}
