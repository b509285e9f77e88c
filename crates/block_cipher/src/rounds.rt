// The rounds of AES and the steps of its key schedule, on the columns of the state as words.
ghost use Rattle.std.specs.Prelude.{◌≡◌, ◌/◌, ◌%◌, [], ◌∷◌};
ghost use Rattle.block_cipher.specs.Aes.{sub_bytes, shift_rows, mix_columns, add_round_key, mix_row, sub_word, rot_word, xor_word, rcon_word, next_round_key};
ghost use Rattle.block_cipher.specs.Field.{sbox};
ghost use Rattle.block_cipher.specs.Words.{quad, bytes_of};

use crate::columns::Columns;
use crate::tables::{row, sub_byte};

pub(crate) fn add_round_key(s: Columns, k: Columns) -> Columns
    ensures { bytes_of result ≡ add_round_key (bytes_of s) (bytes_of k) }
{
    Columns {
        a: s.a ^ k.a,
        b: s.b ^ k.b,
        c: s.c ^ k.c,
        d: s.d ^ k.d,
    }
}

// A round with all of its four steps.
pub(crate) fn round(s: Columns, k: Columns) -> Columns
    ensures { bytes_of result ≡ add_round_key (mix_columns (shift_rows (sub_bytes (bytes_of s)))) (bytes_of k) }
{
    shifted(s, k, column)
}

// The last round, which has no MixColumns.
pub(crate) fn last_round(s: Columns, k: Columns) -> Columns
    ensures { bytes_of result ≡ add_round_key (shift_rows (sub_bytes (bytes_of s))) (bytes_of k) }
{
    shifted(s, k, last_column)
}

// The round key after `k`, with its round constant.
pub(crate) fn next_round_key(k: Columns, rcon: u8) -> Columns
    ensures { bytes_of result ≡ next_round_key (bytes_of k) rcon }
{
    let a = k.a ^ turned(k.d, rcon);
    let b = k.b ^ a;
    let c = k.c ^ b;
    let d = k.d ^ c;
    Columns { a, b, c, d }
}

// ShiftRows, and `column` at each column that it makes, with the column of the round key.
fn shifted<F: Fn(u8, u8, u8, u8, u32) -> u32>(s: Columns, k: Columns, column: F) -> Columns
    requires { F.IsAlwaysCallable column }
    ensures a { F.post column (s.a % 256) (s.b / 256 % 256) (s.c / 65536 % 256) (s.d / 16777216 % 256) k.a result.a }
    ensures b { F.post column (s.b % 256) (s.c / 256 % 256) (s.d / 65536 % 256) (s.a / 16777216 % 256) k.b result.b }
    ensures c { F.post column (s.c % 256) (s.d / 256 % 256) (s.a / 65536 % 256) (s.b / 16777216 % 256) k.c result.c }
    ensures d { F.post column (s.d % 256) (s.a / 256 % 256) (s.b / 65536 % 256) (s.c / 16777216 % 256) k.d result.d }
{
    let a = s.a.to_le_bytes();
    let b = s.b.to_le_bytes();
    let c = s.c.to_le_bytes();
    let d = s.d.to_le_bytes();
    Columns {
        a: column(a[0], b[1], c[2], d[3], k.a),
        b: column(b[0], c[1], d[2], a[3], k.b),
        c: column(c[0], d[1], a[2], b[3], k.c),
        d: column(d[0], a[1], b[2], c[3], k.d),
    }
}

// One column after a round: p, q, r and s stand in its rows 0 to 3 after ShiftRows.
fn column(p: u8, q: u8, r: u8, s: u8, k: u32) -> u32
    ensures { quad result ≡ xor_word (mix_row (sbox p) (sbox q) (sbox r) (sbox s) ∷ mix_row (sbox q) (sbox r) (sbox s) (sbox p) ∷ mix_row (sbox r) (sbox s) (sbox p) (sbox q) ∷ mix_row (sbox s) (sbox p) (sbox q) (sbox r) ∷ []) (quad k) }
{
    ((row::<0>(p) ^ k) ^ row::<1>(q)) ^ (row::<2>(r) ^ row::<3>(s))
}

// One column after the last round.
fn last_column(p: u8, q: u8, r: u8, s: u8, k: u32) -> u32
    ensures { quad result ≡ xor_word (sbox p ∷ sbox q ∷ sbox r ∷ sbox s ∷ []) (quad k) }
{
    u32::from_le_bytes([sub_byte(p), sub_byte(q), sub_byte(r), sub_byte(s)]) ^ k
}

// RotWord, SubWord and the round constant.
fn turned(w: u32, rcon: u8) -> u32
    ensures { quad result ≡ xor_word (sub_word (rot_word (quad w))) (rcon_word rcon) }
{
    let b = w.to_le_bytes();
    u32::from_le_bytes([
        sub_byte(b[1]) ^ rcon,
        sub_byte(b[2]),
        sub_byte(b[3]),
        sub_byte(b[0]),
    ])
}
