// The calls on datagrams, exported for programs in other languages: a slice is passed as pointer and length.
#![tactic(auto)]

ghost use Rattle.std.specs.Prelude.{◌≡◌};
ghost use Rattle.bucket.specs.Answers.{numbered};
ghost use Rattle.bucket_c.specs.Exports.{table_from};
ghost use Rattle.fields.specs.Form.{read_datagram};
ghost use Rattle.datagram.specs.Answers.{write_of};
ghost use Rattle.datagram_c.specs.Exports.{parsed_number, rewritten};

// 0 where the bytes are a datagram, else 13 or 14.
#[unsafe(no_mangle)]
pub extern "C" fn datagram_read(bytes: &[u8]) -> u32
    ensures { result ≡ parsed_number (read_datagram bytes.now) }
{
    datagram_c::datagram_read(bytes)
}

// What is read is written to `out`: 0, else 13 or 14, else 15 where `out` is shorter than its 10 or 129 bytes.
#[unsafe(no_mangle)]
pub extern "C" fn datagram_rewrite(bytes: &[u8], out: &mut [u8]) -> u32
    ensures { numbered result out.new ≡ rewritten (read_datagram bytes.now) out.old }
{
    datagram_c::datagram_rewrite(bytes, out)
}

// A datagram of numbers, with a table of `count` entries, whose lengths and bytes stand in two slices as for `bucket_write`:
// 0, else 13 or 14, else 15 where `out` is shorter than its 10 or 129 bytes.
#[unsafe(no_mangle)]
pub extern "C" fn datagram_write(
    kind: u8,
    from: u8,
    to: u8,
    bucket: u8,
    election: u16,
    round: u32,
    number: u16,
    counter: u32,
    count: usize,
    lengths: &[u8],
    bytes: &[u8],
    out: &mut [u8],
) -> u32
    ensures { numbered result out.new ≡ write_of (record { kind = kind; from = from; to = to; bucket = bucket; election = election; round = round; version = record { election = number; counter = counter }; table = table_from count lengths.now bytes.now }) out.old }
{
    datagram_c::datagram_write(
        kind, from, to, bucket, election, round, number, counter, count, lengths, bytes, out,
    )
}
