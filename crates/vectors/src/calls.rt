// The calls. The numbers are those of the crates bucket_c and datagram_c: the refusal's, and 255 for `full`; look-ups and
// lists say 113 and 115 for 13 and 15, and look-ups 254 for an absent key.
use crate::words::{name, word};
use crate::{datagrams, showing};
use bucket_c::{
    bucket_get, bucket_keys, bucket_put, bucket_read, bucket_remove, bucket_write, byte_at,
};
use std::io;
use std::io::Write;

// `hash KEY`, `bucket_of KEY BUCKETS`, `datagram_read DATAGRAM`, `datagram_write HEADER,TABLE BYTES OUT`, and the calls on
// buckets: `read BUCKET`, `write TABLE BYTES OUT`, `get BUCKET KEY OUT`, `put KEY VALUE BUCKET`, `remove KEY BUCKET`, `keys
// BUCKET OUT`. A table is its count and its lengths, with its bytes beside it, as bucket_c takes them.
pub fn run<W: Write>(
    to: &mut W,
    line: &[u8],
    first: &[u8],
    second: &[u8],
    out: &mut [u8],
) -> io::Result<()> {
    let answer = match word(line, 0) {
        b"hash" => return showing::hashed(to, name(line), hash::fnv1a(first)),
        b"datagram_read" => return datagrams::read(to, name(line), first),
        b"bucket_of" => hash::bucket_of(first, u32::from(byte_at(second, 0))),
        b"datagram_write" => datagrams::write(first, second, out),
        b"read" => bucket_read(first),
        b"write" => {
            let count = usize::from(byte_at(first, 0));
            bucket_write(count, first.get(1..).unwrap_or(b""), second, out)
        }
        b"get" => bucket_get(first, second, out),
        b"put" => bucket_put(out, first, second),
        b"remove" => bucket_remove(out, first),
        b"keys" => bucket_keys(first, out),
        _ => return showing::unknown(to),
    };
    showing::answered(to, name(line), answer, out)
}
