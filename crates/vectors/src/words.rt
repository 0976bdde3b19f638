// The words of a line, and the bytes that a word stands for: pairs of lower-case hexadecimal digits, `00*105` for 105
// zeros, `,` between that and other bytes, `-` for no bytes.
ghost use Rattle.std.specs.Prelude.{◌≤◌, length, IfSome};

use parse::digits::{hex_digit, number};

// The most bytes that a word may stand for.
pub const ROOM: usize = 5000;

// Word i of a line, of no bytes where there are fewer words.
pub fn word(line: &[u8], i: usize) -> &[u8] {
    line.split(|byte| *byte == b' ').nth(i).unwrap_or(b"")
}

// The name of a case: what stands behind four words.
pub fn name(line: &[u8]) -> &[u8] {
    line.splitn(5, |byte| *byte == b' ').nth(4).unwrap_or(b"")
}

// The bytes of a word, stored from the first place on. The answer is how many they are; none where the word is not of the
// form, or there is no room.
pub fn bytes(text: &[u8], out: &mut [u8]) -> Option<usize>
    ensures { IfSome result (λ len. len ≤ length out.new) }
{
    if text == b"-".as_slice() {
        return Some(0);
    }
    let mut at = 0;
    for piece in text.split(|byte| *byte == b',') {
        at = put_piece(out, at, piece)?;
    }
    Some(at)
}

// What stands between commas: pairs, or a pair, a star and how often. The answer is where the next byte goes.
fn put_piece(out: &mut [u8], at: usize, piece: &[u8]) -> Option<usize>
    requires { at ≤ length out.old }
    ensures { IfSome result (λ end. end ≤ length out.new) }
{
    match piece {
        [] => None,
        [high, low, b'*', times @ ..] => put_run(out, at, byte(*high, *low)?, number(times)?),
        _ => put_pairs(out, at, piece),
    }
}

// The byte of two digits.
fn byte(high: u8, low: u8) -> Option<u8> {
    Some(hex_digit(high)? * 16 + hex_digit(low)?)
}

// A byte, stored `times` times, once at least.
fn put_run(out: &mut [u8], at: usize, byte: u8, times: u32) -> Option<usize>
    ensures { IfSome result (λ end. end ≤ length out.new) }
{
    if times == 0 {
        return None;
    }
    let end = at.checked_add(times as usize)?;
    out.get_mut(at..end)?.fill(byte);
    Some(end)
}

// Pairs of digits, stored from `at` on.
fn put_pairs(out: &mut [u8], at: usize, digits: &[u8]) -> Option<usize>
    requires { at ≤ length out.old }
    ensures { IfSome result (λ end. end ≤ length out.new) }
{
    let mut end = at;
    for pair in digits.chunks(2) {
        let [high, low] = pair else { return None };
        *out.get_mut(end)? = byte(*high, *low)?;
        end += 1;
    }
    Some(end)
}
