// The bucket form on lent bytes: a table is read from them and written to them.
#![tactic(auto)]

ghost use Rattle.std.specs.Prelude.{◌≡◌, ◌&&◌};
ghost use Rattle.entries.specs.Decoded.{table_in};
ghost use Rattle.table.specs.Form.{fits};
ghost use Rattle.checks.specs.Tests.{sound};
ghost use Rattle.bucket.specs.Answers.{numbered, written_number, Read, write_of};

use decoding::decode;
use encoding::encode;
use entries::Decoded;
use table::BUCKET_SIZE;

// Bytes that are not the form of a table (RULES, Bucket bytes 4). Its refusal is that of `outcome_number`.
#[derive(Clone, Copy, Debug, PartialEq, Eq)]
pub struct Malformed;

// Why a table was not written: it has no form, or there is no room. The refusal of each case is `written_number`.
#[derive(Clone, Copy, Debug, PartialEq, Eq)]
pub enum WriteError {
    Malformed,
    Short,
}

// The table of bucket bytes, which are taken exactly where they are the form of a table. Its count and lengths are within
// its arrays.
pub fn read(bucket: &[u8]) -> Result<Decoded, Malformed>
    ensures { Read bucket.now result }
{
    if bucket.len() != BUCKET_SIZE {
        return Err(Malformed);
    }
    let table = decode(bucket);
    if !checks::fits(table) {
        return Err(Malformed);
    }
    let mut form = [0u8; BUCKET_SIZE];
    encode(table, &mut form);
    if bucket == form.as_slice() {
        Ok(table)
    } else {
        Err(Malformed)
    }
}

// Whether a table has a bucket form: its count and lengths are within its arrays, and its entries are those of a table.
pub fn has_form(table: Decoded) -> bool
    ensures { result ≡ (sound table && fits 4 16 (table_in table)) }
{
    checks::sound(table) && checks::fits(table)
}

// The bucket form of a table, written over the first 113 bytes; 13 where it has none, else 15 where there is no room.
#[tactic(auto, using(crate::proofs::Answering::write_unfit, crate::proofs::Answering::write_short, crate::proofs::Answering::write_done))]
pub fn write(table: Decoded, out: &mut [u8]) -> Result<(), WriteError>
    ensures { numbered (written_number result) out.new ≡ write_of table out.old }
{
    if !has_form(table) {
        return Err(WriteError::Malformed);
    }
    if out.len() < BUCKET_SIZE {
        return Err(WriteError::Short);
    }
    encode(table, out);
    Ok(())
}
