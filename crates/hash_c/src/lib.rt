// The hash of a key and its bucket for programs in other languages: a slice is passed as pointer and length.
#![tactic(auto)]

ghost use Rattle.std.specs.Prelude.{◌≡◌};
ghost use Rattle.hash.specs.Fnv.{fnv, bucket_of};

// The hash of a key.
#[unsafe(no_mangle)]
pub extern "C" fn fnv1a(key: &[u8]) -> u32
    ensures { result ≡ fnv key.now }
{
    hash::fnv1a(key)
}

// The bucket of a key among this many, and 0 where there are none.
#[unsafe(no_mangle)]
pub extern "C" fn bucket_of(key: &[u8], buckets: u32) -> u32
    ensures { result ≡ bucket_of buckets key.now }
{
    hash::bucket_of(key, buckets)
}
