// Bytes as they are.
ghost use Rattle.std.specs.Prelude.{◌≤◌, ◌+◌, length};
ghost use Rattle.print.specs.Printed.{Printed};

pub fn put_bytes(out: &mut [u8], at: usize, text: &[u8]) -> usize
    requires { at + length text.now ≤ length out.old }
    ensures { Printed text.now out.old at out.new result }
{
    let end = at + text.len();
    out[at..end].copy_from_slice(text);
    end
}
