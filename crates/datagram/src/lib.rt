// Datagrams: read from lent bytes, and written to them.
#![tactic(auto)]

ghost use Rattle.std.specs.Prelude.{◌≡◌, ◌++◌, ◌&&◌, true, false, ◌≤◌, ◌+◌, length, get_or, drop};
ghost use Rattle.std.proofs.lemmas.List.Edits.{sets};
ghost use Rattle.entries.specs.Decoded.{table_in};
ghost use Rattle.table.specs.Form.{fits};
ghost use Rattle.checks.specs.Tests.{sound};
ghost use Rattle.bucket.specs.Answers.{numbered};
ghost use Rattle.fields.specs.Form.{version_of, carries, well_formed, header_bytes, full_bytes, field, headed, checked, read_datagram};
ghost use Rattle.datagram.specs.Answers.{written_number, meant, StandsFor, Made, write_of};
ghost use Rattle.datagram.specs.declared.ReadError.TheVariants as read_error;

use bucket::{Malformed, has_form};
use entries::Decoded;
use entries::slots::no_table;
use fields::{
    BUCKET_AT, BUCKET_NUMBER_AT, ELECTION_AT, FROM_AT, FULL_SIZE, KIND_AT, PLAIN_SIZE, ROUND_AT,
    TO_AT, VERSION_COUNTER_AT, VERSION_ELECTION_AT, Version, addressed, content_agrees,
    has_no_round, put_header, put_version,
};

// Why bytes are not taken (RULES, Datagrams 7). The refusal of each case is `outcome_number`.
#[derive(Clone, Copy, Debug, PartialEq, Eq)]
pub enum ReadError {
    BadBucket,
    BadDatagram,
}

impl From<Malformed> for ReadError {
    ghost from_gives = { λ _ e. e ≡ read_error.BadBucket };

    fn from(_refusal: Malformed) -> ReadError {
        ReadError::BadBucket
    }
}

// Why a datagram was not written (RULES, Datagrams 8). The refusal of each case is `written_number`.
#[derive(Clone, Copy, Debug, PartialEq, Eq)]
pub enum WriteError {
    BadBucket,
    BadDatagram,
    Short,
}

// Kinds other than 4 and 8 carry no version and no table: read as zeros and no entry, and not written.
#[derive(Clone, Copy)]
pub struct Datagram {
    pub kind: u8,
    pub from: u8,
    pub to: u8,
    pub bucket: u8,
    pub election: u16,
    pub round: u32,
    pub version: Version,
    pub table: Decoded,
}

// The datagram of ten header bytes, with a version and a table.
fn headed(bytes: &[u8], version: Version, table: Decoded) -> Datagram
    requires { 10 ≤ length bytes.now }
    ensures { Made (headed bytes.now (version_of version) (table_in table)) table result }
{
    Datagram {
        kind: bytes[KIND_AT],
        from: bytes[FROM_AT],
        to: bytes[TO_AT],
        bucket: bytes[BUCKET_NUMBER_AT],
        election: two_at(bytes, ELECTION_AT),
        round: four_at(bytes, ROUND_AT),
        version,
        table,
    }
}

// The number in two bytes.
fn two_at(bytes: &[u8], at: usize) -> u16
    requires { at + 2 ≤ length bytes.now }
    ensures { result ≡ field at 2 bytes.now }
{
    u16::from_be_bytes([bytes[at], bytes[at + 1]])
}

// The number in four bytes.
fn four_at(bytes: &[u8], at: usize) -> u32
    requires { at + 4 ≤ length bytes.now }
    ensures { result ≡ field at 4 bytes.now }
{
    u32::from_be_bytes([bytes[at], bytes[at + 1], bytes[at + 2], bytes[at + 3]])
}

// The rules of each kind. A kind that carries no version and no table is not asked for them.
#[tactic(auto, using(crate::proofs::Answering::plain_kind))]
fn well_formed(datagram: Datagram) -> bool
    ensures { result ≡ well_formed (meant datagram) }
{
    if !addressed(
        datagram.from,
        datagram.to,
        datagram.bucket,
        datagram.election,
    ) {
        return false;
    }
    // A match over the kind numbers is the form that DECISIONS, Forms of code, gives.
    match datagram.kind {
        1..=3 => has_no_round(datagram.bucket, datagram.round),
        4 => {
            datagram.version.election == datagram.election
                && content_agrees(datagram.round, datagram.version, datagram.table)
        }
        5..=7 | 9 => 1 <= datagram.round,
        8 => content_agrees(datagram.round, datagram.version, datagram.table),
        _ => false,
    }
}

// A datagram that is taken where it is well formed.
fn checked(datagram: Datagram) -> Result<Datagram, ReadError>
    requires { sound datagram.table ≡ true }
    ensures { StandsFor (checked (meant datagram)) result }
{
    if well_formed(datagram) {
        Ok(datagram)
    } else {
        Err(ReadError::BadDatagram)
    }
}

// A kind that carries no bucket.
fn read_plain(bytes: &[u8]) -> Result<Datagram, ReadError>
    requires { carries (get_or bytes.now 0 0) ≡ false }
    ensures { StandsFor (read_datagram bytes.now) result }
{
    if bytes.len() != PLAIN_SIZE {
        return Err(ReadError::BadDatagram);
    }
    let version = Version {
        election: 0,
        counter: 0,
    };
    checked(headed(bytes, version, no_table()))
}

// A kind that carries a version and a bucket: 13 is looked at before 14.
fn read_full(bytes: &[u8]) -> Result<Datagram, ReadError>
    requires { carries (get_or bytes.now 0 0) ≡ true }
    ensures { StandsFor (read_datagram bytes.now) result }
{
    if bytes.len() != FULL_SIZE {
        return Err(ReadError::BadDatagram);
    }
    let table = bucket::read(&bytes[BUCKET_AT..])?;
    let version = Version {
        election: two_at(bytes, VERSION_ELECTION_AT),
        counter: four_at(bytes, VERSION_COUNTER_AT),
    };
    checked(headed(bytes, version, table))
}

// The datagram of lent bytes, which are taken exactly where they are the form of one: 13 or 14 else.
pub fn read(bytes: &[u8]) -> Result<Datagram, ReadError>
    ensures { StandsFor (read_datagram bytes.now) result }
{
    if bytes.is_empty() {
        return Err(ReadError::BadDatagram);
    }
    // A match over the kind numbers is the form that DECISIONS, Forms of code, gives.
    match bytes[KIND_AT] {
        1..=3 | 5..=7 | 9 => read_plain(bytes),
        4 | 8 => read_full(bytes),
        _ => Err(ReadError::BadDatagram),
    }
}

// The header of a datagram.
fn put_front(out: &mut [u8], datagram: Datagram)
    requires { 10 ≤ length out.old }
    ensures { out.new ≡ sets out.old 0 (header_bytes (meant datagram)) }
{
    put_header(
        out,
        datagram.kind,
        datagram.from,
        datagram.to,
        datagram.bucket,
        datagram.election,
        datagram.round,
    );
}

// The header, the version, and the bucket, which its own writer puts from byte 16 on.
fn put_full(out: &mut [u8], datagram: Datagram)
    requires { (129 ≤ length out.old) × ((sound datagram.table && fits 4 16 (table_in datagram.table)) ≡ true) }
    ensures { out.new ≡ full_bytes (meant datagram) ++ drop 129 out.old }
{
    put_front(out, datagram);
    put_version(out, datagram.version);
    // The part from byte 16 on is lent to the bucket writer, the form that DECISIONS, Forms of code, gives.
    bucket::write(datagram.table, &mut out[BUCKET_AT..]).unwrap();
}

// A kind that carries no bucket: 14, else 15, else the header.
fn write_plain(datagram: Datagram, out: &mut [u8]) -> Result<(), WriteError>
    requires { carries datagram.kind ≡ false }
    ensures { numbered (written_number result) out.new ≡ write_of datagram out.old }
{
    if !well_formed(datagram) {
        return Err(WriteError::BadDatagram);
    }
    if out.len() < PLAIN_SIZE {
        return Err(WriteError::Short);
    }
    put_front(out, datagram);
    Ok(())
}

// A kind that carries a bucket: 13, else 14, else 15, else the whole.
fn write_full(datagram: Datagram, out: &mut [u8]) -> Result<(), WriteError>
    requires { carries datagram.kind ≡ true }
    ensures { numbered (written_number result) out.new ≡ write_of datagram out.old }
{
    if !has_form(datagram.table) {
        return Err(WriteError::BadBucket);
    }
    if !well_formed(datagram) {
        return Err(WriteError::BadDatagram);
    }
    if out.len() < FULL_SIZE {
        return Err(WriteError::Short);
    }
    put_full(out, datagram);
    Ok(())
}

// The form of a datagram, written over the first 10 or 129 bytes. A version and a table that the kind does not carry are
// not looked at. An error leaves the bytes as they were.
pub fn write(datagram: Datagram, out: &mut [u8]) -> Result<(), WriteError>
    ensures { numbered (written_number result) out.new ≡ write_of datagram out.old }
{
    match datagram.kind {
        4 | 8 => write_full(datagram, out),
        _ => write_plain(datagram, out),
    }
}
