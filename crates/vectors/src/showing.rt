// Lines of output.
use std::io;
use std::io::Write;

// The name of a case, and a number.
pub fn numbered<W: Write>(to: &mut W, case: &[u8], number: u32) -> io::Result<()> {
    to.write_all(case)?;
    write!(to, ": {number}")
}

// A line that is no case.
pub fn unknown<W: Write>(to: &mut W) -> io::Result<()> {
    to.write_all(b"?\n")
}

// A line with one hash.
pub fn hashed<W: Write>(to: &mut W, case: &[u8], hash: u32) -> io::Result<()> {
    to.write_all(case)?;
    write!(to, ": {hash:08x}\n")
}

// The least bytes of a run that is printed as one.
const LONG: usize = 5;

// Bytes in hexadecimal, `00*105` for 105 zeros.
fn bytes<W: Write>(to: &mut W, lent: &[u8]) -> io::Result<()> {
    for run in lent.chunk_by(|byte, next| byte == next) {
        let len = run.len();
        match run {
            [byte, ..] if LONG <= len => write!(to, " {byte:02x}*{len}")?,
            _ => {
                for byte in run {
                    write!(to, " {byte:02x}")?;
                }
            }
        }
    }
    Ok(())
}

// A line with one number and the lent bytes.
pub fn answered<W: Write>(to: &mut W, case: &[u8], answer: u32, lent: &[u8]) -> io::Result<()> {
    numbered(to, case, answer)?;
    bytes(to, lent)?;
    to.write_all(b"\n")
}
