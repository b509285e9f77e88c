// The lines that ask for what given coins make.
use crate::show::Entries;
use crate::unanswered::Unanswered;
use crate::words;
use coins::bytes::ByteCoins;
use coins::draw::draw_below;
use coins::sbox::Sbox;
use coins::source::Coins;
use std::io;
use text::reader::Reader;

// `draw K COINS`: a number below K, and how many coins it took.
pub(crate) fn draw(rt: &HostRuntime, words: &mut Reader<'_>) -> Result<(), Unanswered> {
    let bound = words::number(words)?;
    let bytes = words::bytes(rt.alloc(), words)?;
    words::end(words)?;
    let mut coins = ByteCoins::new(bytes.as_slice());
    let (number, taken) = draw_below(&mut coins, bound)?;
    println!(rt; "{number} {taken}")?;
    Ok(())
}

// `box RADIX COINS`: the entries of the box, or the refusal, and how many coins were taken.
pub(crate) fn sbox(rt: &HostRuntime, words: &mut Reader<'_>) -> Result<(), Unanswered> {
    let radix = words::number(words)?;
    let bytes = words::bytes(rt.alloc(), words)?;
    words::end(words)?;
    print_made(rt, radix, bytes.as_slice())?;
    Ok(())
}

fn print_made(rt: &HostRuntime, radix: u16, bytes: &[u8]) -> io::Result<()> {
    let mut coins = ByteCoins::new(bytes);
    match Sbox::shuffled(&mut coins, radix) {
        Ok((sbox, taken)) => {
            let entries = Entries(&sbox);
            println!(rt; "{entries} ; {taken}")
        }
        Err(fault) => {
            let all = bytes.len().saturating_mul(8);
            let taken = all.saturating_sub(count_left(&mut coins, all));
            println!(rt; "{fault} ; {taken}")
        }
    }
}

// How many of at most so many coins are left, found by taking them.
fn count_left(coins: &mut ByteCoins<'_>, most: usize) -> usize {
    (0..most).take_while(|_| coins.take(1).is_ok()).count()
}
