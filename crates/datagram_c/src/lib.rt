// The calls on datagrams for programs in other languages: numbers and slices only. Crate `datagram_c_c` exports them.
#![tactic(auto)]

ghost use Rattle.std.specs.Prelude.{◌≡◌};
ghost use Rattle.bucket.specs.Answers.{numbered};
ghost use Rattle.bucket_c.specs.Exports.{table_from};
ghost use Rattle.fields.specs.Form.{read_datagram};
ghost use Rattle.datagram.specs.Answers.{refusal_number, written_number, write_of};
ghost use Rattle.datagram_c.specs.Exports.{parsed_number, rewritten};

use bucket_c::{MALFORMED, SHORT, table_from};
use datagram::{Datagram, ReadError, WriteError, read, write};
use fields::Version;

// The answers are numbers, since this is the interface for C (`datagram_c_c`). The refusal that buckets do not have.
const BAD_DATAGRAM: u32 = 14;

// The number of a refusal.
fn refusal_number(error: ReadError) -> u32
    ensures { result ≡ refusal_number error }
{
    match error {
        ReadError::BadBucket => MALFORMED,
        ReadError::BadDatagram => BAD_DATAGRAM,
    }
}

// The number of what a writer answers.
fn written_number(written: Result<(), WriteError>) -> u32
    ensures { result ≡ written_number written }
{
    match written {
        Ok(()) => 0,
        Err(WriteError::BadBucket) => MALFORMED,
        Err(WriteError::BadDatagram) => BAD_DATAGRAM,
        Err(WriteError::Short) => SHORT,
    }
}

// 0 where the bytes are a datagram, else 13 or 14.
pub fn datagram_read(bytes: &[u8]) -> u32
    ensures { result ≡ parsed_number (read_datagram bytes.now) }
{
    match read(bytes) {
        Ok(_) => 0,
        Err(error) => refusal_number(error),
    }
}

// What is read is written to `out`: 0, else 13 or 14, else 15 where `out` is shorter than its 10 or 129 bytes.
pub fn datagram_rewrite(bytes: &[u8], out: &mut [u8]) -> u32
    ensures { numbered result out.new ≡ rewritten (read_datagram bytes.now) out.old }
{
    match read(bytes) {
        Ok(datagram) => written_number(write(datagram, out)),
        Err(error) => refusal_number(error),
    }
}

// A datagram of numbers, with a table of `count` entries, whose lengths and bytes stand in two slices as for `bucket_write`:
// 0, else 13 or 14, else 15 where `out` is shorter than its 10 or 129 bytes.
pub fn datagram_write(
    kind: u8,
    from: u8,
    to: u8,
    bucket: u8,
    election: u16,
    round: u32,
    number: u16,
    counter: u32,
    count: usize,
    lengths: &[u8],
    bytes: &[u8],
    out: &mut [u8],
) -> u32
    ensures { numbered result out.new ≡ write_of (record { kind = kind; from = from; to = to; bucket = bucket; election = election; round = round; version = record { election = number; counter = counter }; table = table_from count lengths.now bytes.now }) out.old }
{
    let datagram = Datagram {
        kind,
        from,
        to,
        bucket,
        election,
        round,
        version: Version {
            election: number,
            counter,
        },
        table: table_from(count, lengths, bytes),
    };
    written_number(write(datagram, out))
}
