// Datagrams that are read and written.
ghost use Rattle.std.specs.Prelude.{◌≤◌};

use crate::showing;
use bucket_c::byte_at;
use datagram::Datagram;
use datagram_c::{datagram_read, datagram_write};
use entries::slots::count_of;
use fields::{
    BUCKET_AT, BUCKET_NUMBER_AT, ELECTION_AT, FROM_AT, KIND_AT, ROUND_AT, TO_AT,
    VERSION_COUNTER_AT, VERSION_ELECTION_AT,
};
use std::io;
use std::io::Write;

// Where the table's count and its lengths stand in what `write` takes, behind the header and the version.
const COUNT_AT: usize = BUCKET_AT;

const LENGTHS_AT: usize = COUNT_AT + 1;

// The fields of a datagram, each behind its name, and how many entries its table has.
fn fields<W: Write>(out: &mut W, datagram: Datagram) -> io::Result<()> {
    let Datagram {
        kind,
        from,
        to,
        bucket,
        election,
        round,
        version,
        table,
    } = datagram;
    write!(
        out,
        " kind {kind} from {from} to {to} bucket {bucket} election {election} round {round}"
    )?;
    let entries = count_of(table);
    write!(
        out,
        " version {} {} entries {entries}",
        version.election, version.counter
    )
}

// The number, and the fields where the datagram is taken.
pub fn read<W: Write>(to: &mut W, name: &[u8], bytes: &[u8]) -> io::Result<()> {
    showing::numbered(to, name, datagram_read(bytes))?;
    if let Ok(datagram) = datagram::read(bytes) {
        fields(to, datagram)?;
    }
    to.write_all(b"\n")
}

// The number in two bytes, zeros where there are none.
fn two_at(bytes: &[u8], at: usize) -> u16
    requires { at ≤ 16 }
{
    u16::from_be_bytes([byte_at(bytes, at), byte_at(bytes, at + 1)])
}

// The same, in four.
fn four_at(bytes: &[u8], at: usize) -> u32
    requires { at ≤ 16 }
{
    u32::from_be_bytes([
        byte_at(bytes, at),
        byte_at(bytes, at + 1),
        byte_at(bytes, at + 2),
        byte_at(bytes, at + 3),
    ])
}

// Sixteen bytes of header and version, then the table's count and lengths.
pub fn write(head: &[u8], bytes: &[u8], out: &mut [u8]) -> u32 {
    datagram_write(
        byte_at(head, KIND_AT),
        byte_at(head, FROM_AT),
        byte_at(head, TO_AT),
        byte_at(head, BUCKET_NUMBER_AT),
        two_at(head, ELECTION_AT),
        four_at(head, ROUND_AT),
        two_at(head, VERSION_ELECTION_AT),
        four_at(head, VERSION_COUNTER_AT),
        usize::from(byte_at(head, COUNT_AT)),
        head.get(LENGTHS_AT..).unwrap_or(b""),
        bytes,
        out,
    )
}
