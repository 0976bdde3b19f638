// The lines that are not answers: refusals and the tally.
ghost use Rattle.std.specs.Prelude.{◌++◌, ◌≤◌, ◌+◌, length};
ghost use Rattle.model.specs.Text.{bytes};
ghost use Rattle.model.specs.Lines.{refusal};
ghost use Rattle.model.specs.Print.{decimal, outcome_text, tally_text};
ghost use Rattle.print.specs.Printed.{Printed};

use crate::bytes::put_bytes;
use crate::decimals::put_number;

// The last number of a line, after a text.
fn put_last(out: &mut [u8], at: usize, text: &[u8], number: u32) -> usize
    requires { at + length ((text.now ++ decimal number) ++ bytes "\n") ≤ length out.old }
    ensures { Printed ((text.now ++ decimal number) ++ bytes "\n") out.old at out.new result }
{
    let next = put_number(out, at, text, number);
    put_bytes(out, next, b"\n")
}

// Two numbers, each after a space.
fn put_two(out: &mut [u8], at: usize, first: u32, second: u32) -> usize
    requires { at + length ((bytes " " ++ decimal first) ++ (bytes " " ++ decimal second)) ≤ length out.old }
    ensures { Printed ((bytes " " ++ decimal first) ++ (bytes " " ++ decimal second)) out.old at out.new result }
{
    let next = put_number(out, at, b" ", first);
    put_number(out, next, b" ", second)
}

// The last two numbers of a line, each after a space.
fn put_last_two(out: &mut [u8], at: usize, first: u32, second: u32) -> usize
    requires { at + length ((bytes " " ++ decimal first) ++ ((bytes " " ++ decimal second) ++ bytes "\n")) ≤ length out.old }
    ensures { Printed ((bytes " " ++ decimal first) ++ ((bytes " " ++ decimal second) ++ bytes "\n")) out.old at out.new result }
{
    let next = put_number(out, at, b" ", first);
    put_last(out, next, b" ", second)
}

// That line `line` is refused, with the number of the refusal.
pub fn put_refusal(out: &mut [u8], at: usize, line: u32, number: u32) -> usize
    requires { at + length (outcome_text line (refusal number)) ≤ length out.old }
    ensures { Printed (outcome_text line (refusal number)) out.old at out.new result }
{
    let next = put_number(out, at, b"line ", line);
    put_last(out, next, b" refused ", number)
}

// The tally.
pub fn put_tally(
    out: &mut [u8],
    at: usize,
    sent: u32,
    copied: u32,
    delivered: u32,
    lost: u32,
    in_flight: u32,
) -> usize
    requires { at + length (tally_text (record { sent = sent; copied = copied; delivered = delivered; lost = lost; count_in_flight = in_flight })) ≤ length out.old }
    ensures { Printed (tally_text (record { sent = sent; copied = copied; delivered = delivered; lost = lost; count_in_flight = in_flight })) out.old at out.new result }
{
    let after_sent = put_number(out, at, b"messages ", sent);
    let after_delivered = put_two(out, after_sent, copied, delivered);
    put_last_two(out, after_delivered, lost, in_flight)
}
