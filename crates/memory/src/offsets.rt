// Where each field lies in the lent arrays; the definitions are those of specs/Layout.antt.
use entries::{KEY_ROOM, VALUE_ROOM};

// The counts.
pub const COUNT_SERVERS: usize = 0;

pub const COUNT_BUCKETS: usize = 1;

pub const COUNT_MESSAGES: usize = 2;

pub const COUNT_LINES: usize = 3;

pub const COUNT_CALLS: usize = 4;

// A head, from its block on; a vote for each server.
pub const HEAD_NUMBER: usize = 0;

pub const HEAD_VOTE: usize = 1;

pub const HEAD_LEADER: usize = 2;

pub const HEAD_ROLE: usize = 3;

pub const HEAD_LAST: usize = 4;

pub const HEAD_STOPPED: usize = 5;

pub const VOTE_0: usize = 6;

pub const VOTE_1: usize = 7;

pub const VOTE_2: usize = 8;

pub const VOTE_3: usize = 9;

pub const VOTE_4: usize = 10;

pub const VOTE_5: usize = 11;

pub const VOTE_6: usize = 12;

// A slot, from its block on: the version of the copy, the open round with a mark for each server, the open call, the numbers of the call's words.
pub const VERSION_ELECTION: usize = 0;

pub const VERSION_COUNTER: usize = 1;

pub const ROUND_PURPOSE: usize = 2;

pub const ROUND_NUMBER: usize = 3;

pub const ROUND_ELECTION: usize = 4;

pub const BEST_ELECTION: usize = 5;

pub const BEST_COUNTER: usize = 6;

pub const MARK_0: usize = 7;

pub const MARK_1: usize = 8;

pub const MARK_2: usize = 9;

pub const MARK_3: usize = 10;

pub const MARK_4: usize = 11;

pub const MARK_5: usize = 12;

pub const MARK_6: usize = 13;

pub const CALL_KIND: usize = 14;

pub const CALL_NUMBER: usize = 15;

pub const CALL_ROUNDS: usize = 16;

pub const CALL_SENT: usize = 17;

pub const WORDS_KIND: usize = 18;

pub const WORDS_BUCKET: usize = 19;

pub const KEY_NUMBER: usize = 20;

pub const EXPECTED_NUMBER: usize = 21;

pub const VALUE_NUMBER: usize = 22;

// The bytes of a call's key and values, from their block on.
pub const KEY_TEXT: usize = 0;

pub const EXPECTED_TEXT: usize = KEY_ROOM;

pub const VALUE_TEXT: usize = KEY_ROOM + VALUE_ROOM;

// A message's header, from its block on.
pub const MESSAGE_KIND: usize = 0;

pub const MESSAGE_SENDER: usize = 1;

pub const MESSAGE_RECEIVER: usize = 2;

pub const MESSAGE_BUCKET: usize = 3;

pub const MESSAGE_ELECTION: usize = 4;

pub const MESSAGE_ROUND: usize = 5;

pub const WRITTEN_ELECTION: usize = 6;

pub const WRITTEN_COUNTER: usize = 7;

// An answer, from its block on.
pub const ANSWER_CALL: usize = 0;

pub const ANSWER_RESULT: usize = 1;

pub const ANSWER_ROUNDS: usize = 2;
