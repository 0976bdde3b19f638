// Words that stand for a choice, each named once. What each stands for in the definitions is said in specs/Views.antt.
// They are no enums: they lie in lent arrays that may hold any numbers, and `leaves` of `Performed` (crates/machine/specs/Meaning.antt)
// settles each word for any memory.

// Roles of a server.
pub const FOLLOWER: u32 = 0;

pub const CANDIDATE: u32 = 1;

pub const LEADING: u32 = 2;

// Whether a server is stopped.
pub const RUNNING: u32 = 0;

pub const STOPPED: u32 = 1;

// Marks of a round, and votes.
pub const ACKNOWLEDGED: u32 = 1;

pub const REFUSED: u32 = 2;

pub const VOTED: u32 = 1;

// What a round is made for; with none no round is open.
pub const NO_ROUND: u32 = 0;

pub const RECOVERY_READ: u32 = 1;

pub const RECOVERY_WRITE: u32 = 2;

pub const CHECK: u32 = 3;

pub const OWN_WRITE: u32 = 4;

// Kinds of calls; with none no call is open.
pub const NO_CALL: u32 = 0;

pub const GET: u32 = 1;

pub const SET: u32 = 2;

pub const SETIF: u32 = 3;

pub const DEL: u32 = 4;

pub const KEYS: u32 = 5;

// Whether the own write of a call was sent.
pub const SENT: u32 = 1;

// Results of calls; with none a table is to be written, or there is no answer.
pub const NO_RESULT: u32 = 0;

pub const VALUE: u32 = 1;

pub const LISTED: u32 = 2;

pub const DONE: u32 = 3;

pub const MISMATCH: u32 = 4;

pub const FULL: u32 = 5;

pub const NOTDONE: u32 = 6;

pub const UNKNOWN: u32 = 7;

pub const ABSENT: u32 = 8;

// Kinds of messages; with none nothing is sent.
pub const NO_MESSAGE: u32 = 0;

pub const PLEASE_VOTE: u32 = 1;

pub const ACK_VOTE: u32 = 2;

pub const NACK_VOTE: u32 = 3;

pub const REPLICA_WRITE: u32 = 4;

pub const ACK_WRITE: u32 = 5;

pub const NACK_WRITE: u32 = 6;

pub const REPLICA_READ: u32 = 7;

pub const ACK_READ: u32 = 8;

pub const NACK_READ: u32 = 9;
