// The lines that ask for what follows from a key.
use crate::show::Entries;
use crate::unanswered::Unanswered;
use crate::words;
use block_cipher::cmac::Cmac;
use coins::sbox::Sbox;
use coins::source::Coins;
use faults::fault::Fault;
use keys::key_coins::KeyCoins;
use keys::sequence::index_sequence;
use std::io;
use text::reader::Reader;

// `indices given|key KEY RADIX LEN LAYERS RUN COUNT`: the first COUNT indices of the sequence of so many layers.
pub(crate) fn indices(rt: &HostRuntime, words: &mut Reader<'_>) -> Result<(), Unanswered> {
    let sequence = words::sequence(words)?;
    let mac = Cmac::new(words::key(words)?);
    let radix = words::number(words)?;
    let len = words::number(words)?;
    let layers: u16 = words::number(words)?;
    let run = words::next(words)?;
    let count = words::number(words)?;
    words::end(words)?;
    let mut indices = vec![in rt.alloc(); 0u8; usize::from(layers)]?;
    let mut lent = [0u8; 32];
    index_sequence(
        &mac,
        sequence,
        radix,
        len,
        run,
        &mut lent,
        indices.as_mut_slice(),
    )?;
    print_first(rt, indices.as_slice(), count)?;
    Ok(())
}

fn print_first(rt: &HostRuntime, indices: &[u8], count: u16) -> io::Result<()> {
    for index in indices.iter().take(usize::from(count)) {
        print!(rt; "{index:02X}")?;
    }
    println!(rt; "")
}

// `keybox KEY RADIX N`: box N, counted from 0, of the pool from the key.
pub(crate) fn key_sbox(rt: &HostRuntime, words: &mut Reader<'_>) -> Result<(), Unanswered> {
    let mac = Cmac::new(words::key(words)?);
    let radix = words::number(words)?;
    let number = words::number(words)?;
    words::end(words)?;
    let mut lent = [0u8; 32];
    let mut coins = KeyCoins::new(&mac, radix, &mut lent)?;
    skip_boxes(&mut coins, radix, number)?;
    let (sbox, _) = Sbox::shuffled(&mut coins, u16::from(radix))?;
    let entries = Entries(&sbox);
    println!(rt; "{entries}")?;
    Ok(())
}

// Makes the boxes before the one that is asked for.
fn skip_boxes(coins: &mut KeyCoins, radix: u8, count: u16) -> Result<(), Fault> {
    for _ in 0..count {
        let _ = Sbox::shuffled(coins, u16::from(radix))?;
    }
    Ok(())
}
