// Keys and values in hexadecimal.
ghost use Rattle.std.specs.Prelude.{◌≡◌, ◌++◌, ◌≤◌, ◌<◌, ◌+◌, length};
ghost use Rattle.std.proofs.Math.Option.{some};
ghost use Rattle.entries.specs.Decoded.{key_bytes, value_bytes};
ghost use Rattle.model.specs.Text.{bytes};
ghost use Rattle.model.specs.Print.{hex_digit, hex_pairs, value_text};
ghost use Rattle.print.specs.Printed.{Printed};

use crate::bytes::put_bytes;
use entries::{Key, Value};

#[tactic(auto, unfolding(model::specs::Print::hex_digit))]
fn hex_digit(digit: u8) -> u8
    requires { digit < 16 }
    ensures { result ≡ hex_digit digit }
{
    match digit {
        0..=9 => b'0' + digit,
        _ => b'a' - 10 + digit,
    }
}

// Two digits for each byte.
pub fn put_pairs(out: &mut [u8], at: usize, bytes: &[u8]) -> usize
    requires { at + length (hex_pairs bytes.now) ≤ length out.old }
    ensures { Printed (hex_pairs bytes.now) out.old at out.new result }
{
    let mut end = at;
    for byte in bytes {
        out[end] = hex_digit(*byte / 16);
        out[end + 1] = hex_digit(*byte % 16);
        end += 2;
    }
    end
}

// The same, with `.` for no bytes.
pub fn put_there(out: &mut [u8], at: usize, bytes: &[u8]) -> usize
    requires { at + length (value_text (some bytes.now)) ≤ length out.old }
    ensures { Printed (value_text (some bytes.now)) out.old at out.new result }
{
    if bytes.is_empty() {
        return put_bytes(out, at, b".");
    }
    put_pairs(out, at, bytes)
}

// A value that is there, after a space.
pub fn put_value(out: &mut [u8], at: usize, value: Value) -> usize
    requires { at + length (bytes " " ++ value_text (some (value_bytes value))) ≤ length out.old }
    ensures { Printed (bytes " " ++ value_text (some (value_bytes value))) out.old at out.new result }
{
    let next = put_bytes(out, at, b" ");
    put_there(out, next, value.as_slice())
}

// A key after a space.
pub fn put_key(out: &mut [u8], at: usize, key: Key) -> usize
    requires { at + length (bytes " " ++ hex_pairs (key_bytes key)) ≤ length out.old }
    ensures { Printed (bytes " " ++ hex_pairs (key_bytes key)) out.old at out.new result }
{
    let next = put_bytes(out, at, b" ");
    put_pairs(out, next, key.as_slice())
}
