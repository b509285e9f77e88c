// Bytes and numbers as hexadecimal digits.
ghost use Rattle.std.specs.Prelude.{◌≡◌, ◌<◌, length, is_some};
ghost use Rattle.std.specs.Option.{option_map};
ghost use Rattle.text.specs.Hex.{digit_of, byte_of, bytes_of, block_of, in_place, number_of, lower_digit, digits_of, ReadsBack};

// Which letters are digits.
#[derive(Clone, Copy, PartialEq, Eq, Debug)]
pub enum Letters {
    // A to F
    Upper,
    // A to F and a to f
    Either,
}

// The value of a digit.
#[tactic(auto, using(crate::proofs::Digits::digit_is, std::proofs::lemmas::Bool::Decides::nat_tests))]
pub fn digit(letters: Letters, b: u8) -> Option<u8>
    ensures { result ≡ digit_of letters b }
{
    match b {
        b'0'..=b'9' => Some(b - b'0'),
        b'A'..=b'F' => Some(b - b'A' + 10),
        b'a'..=b'f' if matches!(letters, Letters::Either) => Some(b - b'a' + 10),
        _ => None,
    }
}

// The byte of two digits.
#[tactic(auto, using(crate::proofs::Digits::digit_below), unfolding(crate::specs::Hex::byte_of))]
pub fn byte(letters: Letters, high: u8, low: u8) -> Option<u8>
    ensures { result ≡ byte_of letters high low }
{
    let h = digit(letters, high)?;
    let d = digit(letters, low)?;
    Some(16 * h + d)
}

// The sixteen bytes of 32 digits.
pub fn block(letters: Letters, text: &[u8]) -> Option<[u8; 16]>
    ensures { result ≡ block_of letters text.now }
{
    if text.len() != 32 {
        return None;
    }
    let (pairs, _) = text.as_chunks::<2>();
    let mut block = [0u8; 16];
    for (i, [high, low]) in pairs.iter().enumerate() {
        block[i] = byte(letters, *high, *low)?;
    }
    Some(block)
}

// Whether a text is an even number of digits.
pub fn is_bytes(letters: Letters, text: &[u8]) -> bool
    ensures { result ≡ is_some (bytes_of letters text.now) }
{
    let (pairs, odd) = text.as_chunks::<2>();
    odd.is_empty()
        && pairs
            .iter()
            .all(|[high, low]| byte(letters, *high, *low).is_some())
}

// Reads an even number of digits where they stand: the bytes that they spell take the place of the first half,
// and their number is the answer. Any other text is left as it is.
pub fn decode(letters: Letters, text: &mut [u8]) -> Option<usize>
    ensures value { result ≡ option_map length (bytes_of letters text.old) }
    ensures after { text.new ≡ in_place text.old (bytes_of letters text.old) }
{
    if !is_bytes(letters, text) {
        return None;
    }
    // Counted: a byte is written where digits stood that were read before, in the text that the next are read from.
    let n = text.len() / 2;
    for i in 0..n {
        let b = byte(letters, text[2 * i], text[2 * i + 1])?;
        text[i] = b;
    }
    Some(n)
}

// The number of 1 to 32 digits.
pub fn number(letters: Letters, text: &[u8]) -> Option<u128>
    ensures { result ≡ number_of letters text.now }
{
    if text.is_empty() || text.len() > 32 {
        return None;
    }
    let mut n = 0;
    for b in text {
        n = n * 16 + u128::from(digit(letters, *b)?);
    }
    Some(n)
}

// The 32 digits of a block, in lower case.
pub fn lower(block: [u8; 16]) -> [u8; 32]
    ensures { result ≡ digits_of block }
{
    let mut text = [0u8; 32];
    for (i, b) in block.iter().enumerate() {
        text[2 * i] = lower_digit(*b / 16);
        text[2 * i + 1] = lower_digit(*b % 16);
    }
    text
}

// What is written is read as what it was.
pub fn digits_read_back()
    ensures { ReadsBack }
{}

// The digit of a value below 16.
fn lower_digit(n: u8) -> u8
    requires { n < 16 }
    ensures { result ≡ lower_digit n }
{
    if n < 10 { b'0' + n } else { b'a' + (n - 10) }
}
