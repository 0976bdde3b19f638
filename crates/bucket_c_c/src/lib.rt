// The calls on bucket bytes, exported for programs in other languages: a slice is passed as pointer and length.
#![tactic(auto)]

ghost use Rattle.std.specs.Prelude.{◌≡◌};
ghost use Rattle.table.specs.Form.{read_number};
ghost use Rattle.bucket.specs.Answers.{numbered, write_of};
ghost use Rattle.bucket_calls.specs.Answers.{put_of, remove_of};
ghost use Rattle.bucket_c.specs.Exports.{table_from, get_of, keys_out};

// 0 where the bytes are a bucket, 13 else.
#[unsafe(no_mangle)]
pub extern "C" fn bucket_read(bucket: &[u8]) -> u32
    ensures { result ≡ read_number 4 16 bucket.now }
{
    bucket_c::bucket_read(bucket)
}

// The form of a table of `count` entries. Entry i has its key's length at 2i of `lengths` and its value's at 2i + 1, its key
// at 24i of `bytes` and its value at 24i + 8; missing bytes are 0.
#[unsafe(no_mangle)]
pub extern "C" fn bucket_write(count: usize, lengths: &[u8], bytes: &[u8], out: &mut [u8]) -> u32
    ensures { numbered result out.new ≡ write_of (table_from count lengths.now bytes.now) out.old }
{
    bucket_c::bucket_write(count, lengths, bytes, out)
}

// The value of a key, written to `out`: its length, 254 where the key is absent, 113 where the bucket is refused, 115 where
// `out` is too short.
#[unsafe(no_mangle)]
pub extern "C" fn bucket_get(bucket: &[u8], key: &[u8], out: &mut [u8]) -> u32
    ensures { numbered result out.new ≡ get_of bucket.now key.now out.old }
{
    bucket_c::bucket_get(bucket, key, out)
}

// A key's new value, which may have no bytes: 0, or 255 where there is no room, or 13.
#[unsafe(no_mangle)]
pub extern "C" fn bucket_put(bucket: &mut [u8], key: &[u8], value: &[u8]) -> u32
    ensures { numbered result bucket.new ≡ put_of bucket.old key.now value.now }
{
    bucket_c::bucket_put(bucket, key, value)
}

// The bucket without a key: 0 or 13.
#[unsafe(no_mangle)]
pub extern "C" fn bucket_remove(bucket: &mut [u8], key: &[u8]) -> u32
    ensures { numbered result bucket.new ≡ remove_of bucket.old key.now }
{
    bucket_c::bucket_remove(bucket, key)
}

// All keys, rising, each behind its length, written to `out`: how many they are, 113 where the bucket is refused, 115 where
// they do not fit. 36 bytes are room enough for any bucket's keys.
#[unsafe(no_mangle)]
pub extern "C" fn bucket_keys(bucket: &[u8], out: &mut [u8]) -> u32
    ensures { numbered result out.new ≡ keys_out bucket.now out.old }
{
    bucket_c::bucket_keys(bucket, out)
}
