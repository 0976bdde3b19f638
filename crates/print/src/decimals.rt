// Numbers in decimal.
ghost use Rattle.std.specs.Prelude.{◌++◌, ◌≤◌, ◌<◌, ◌+◌, length};
ghost use Rattle.model.specs.Print.{decimal};
ghost use Rattle.print.specs.Printed.{Printed};
ghost use Rattle.print.specs.Figures.{FiguresOf};

use crate::bytes::put_bytes;
use crate::{FIGURES, Figures};

// The figures of a number, from the last to the first.
fn figures_of(number: u32) -> Figures
    ensures { FiguresOf number result }
{
    let mut bytes = [0u8; FIGURES];
    let mut from = FIGURES;
    let mut rest = number;
    while 9 < rest {
        from -= 1;
        bytes[from] = b'0' + (rest % 10) as u8;
        rest = rest / 10;
    }
    from -= 1;
    bytes[from] = b'0' + rest as u8;
    Figures { bytes, from }
}

pub fn put_decimal(out: &mut [u8], at: usize, number: u32) -> usize
    requires { at + length (decimal number) ≤ length out.old }
    ensures { Printed (decimal number) out.old at out.new result }
{
    let figures = figures_of(number);
    let bytes = figures.bytes;
    let from = figures.from;
    put_bytes(out, at, &bytes[from..])
}

// A number after a text.
pub fn put_number(out: &mut [u8], at: usize, text: &[u8], number: u32) -> usize
    requires { at + length (text.now ++ decimal number) ≤ length out.old }
    ensures { Printed (text.now ++ decimal number) out.old at out.new result }
{
    let next = put_bytes(out, at, text);
    put_decimal(out, next, number)
}
