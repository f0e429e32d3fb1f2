// A number in a column: decimal, right-justified with spaces, with no sign and no leading zero.
ghost use Rattle.std.specs.Prelude.{◌≡◌, ◌^◌, ◌<◌, ◌≤◌, length, replicate, None, MatchBool, MatchResult};
ghost use Rattle.std.specs.Option.{unwrap_or};
ghost use Rattle.columns.specs.Numbers.{grown, number_after, number_of, number_text, Fits, NumberSays};

use crate::no_room::NoRoom;

// The widest column that a number is read from or written to: all its numbers fit 64 bits.
const WIDEST: usize = 18;

// The number that a column of any width holds.
pub fn number(column: &[u8]) -> Option<u64>
    ensures value { result ≡ number_of column.now }
    ensures exact { NumberSays column.now result }
{
    if column.len() > WIDEST {
        None
    } else {
        digits(column)
    }
}

// Fills a column of any width with a number; where it has no room, nothing is written.
pub fn put_number(column: &mut [u8], value: u64) -> Result<(), NoRoom>
    ensures { MatchResult result (λ _. Fits (length column.old) value × (column.new ≡ number_text (length column.old) value)) (λ _. (Fits (length column.old) value → ⊥) × (column.new ≡ column.old)) }
{
    if !fits(column.len(), value) {
        return Err(NoRoom);
    }
    // spaces in the whole column first: its width is known before the number of its digits is
    column.fill(b' ');
    put_digits(column, value);
    Ok(())
}

// What a number's bytes say with one more of them: `None` before the first digit.
fn digit_after(before: Option<u64>, byte: u8) -> Option<Option<u64>>
    requires { unwrap_or before 0 < 10 ^ 18 }
    ensures { result ≡ grown before byte }
{
    match before {
        None if byte == b' ' => Some(None),
        None if byte.is_ascii_digit() => Some(Some(u64::from(byte - b'0'))),
        Some(n) if n > 0 && byte.is_ascii_digit() => Some(Some(n * 10 + u64::from(byte - b'0'))),
        _ => None,
    }
}

// The number that the bytes of a column say. (A fold does not tell its closure how many digits stand
// before a byte, and so not that ten times their number fits.)
fn digits(column: &[u8]) -> Option<u64>
    requires { length column.now ≤ 18 }
    ensures { result ≡ number_after None column.now }
{
    let mut value = None;
    for byte in column {
        value = digit_after(value, *byte)?;
    }
    value
}

// Whether a column of so many bytes has room for a number.
fn fits(width: usize, value: u64) -> bool
    ensures { MatchBool result (Fits width value) (Fits width value → ⊥) }
{
    // a width of at most 18 fits, so the cast cuts nothing off
    (1..=WIDEST).contains(&width) && value < 10u64.pow(width as u32)
}

// Writes a number that has room there over a column of spaces: its last digit stands last, and the rest before it.
fn put_digits(column: &mut [u8], value: u64)
    requires some { 0 < length column.old }
    requires room { value < 10 ^ length column.old }
    requires blank { column.old ≡ replicate (length column.old) 32 }
    ensures { column.new ≡ number_text (length column.old) value }
{
    let Some((last, front)) = column.split_last_mut() else {
        unreachable!();
    };
    // a digit fits, so the cast cuts nothing off
    *last = b'0' + (value % 10) as u8;
    if value >= 10 {
        put_digits(front, value / 10);
    }
}
