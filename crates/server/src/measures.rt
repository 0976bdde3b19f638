// The measures of a cluster; those with MAX have definitions of the same names in crates/model/specs/Measures.antt.

pub const MAX_SERVERS: u32 = 7;

pub const MAX_BUCKETS: u32 = 8;

pub const MAX_MESSAGES: u32 = 64;

pub const MAX_ACCEPTED: u32 = 1000000;

pub const MAX_ELECTION: u32 = 65535;

// As many places as there can be servers.
pub const SERVERS: usize = MAX_SERVERS as usize;

// The last server and the last bucket that there can be.
pub const LAST_SERVER: u32 = MAX_SERVERS - 1;

pub const LAST_BUCKET: u32 = MAX_BUCKETS - 1;
