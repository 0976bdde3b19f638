// The parts of a plan: where it happens, what is carried out, and what stands where there is nothing.
ghost use Rattle.std.specs.Prelude.{◌≡◌};
ghost use Rattle.plans.specs.Plans.{no_words, no_message, no_effect, line_step, move_plan};

use crate::{Carried, Plan, Step};
use entries::{Decoded, Key, Slot, TABLE_ROOM, Value};
use memory::Counts;
use moves::Move;
use rounds::opening::no_version;
use server::codes::{NO_CALL, NO_MESSAGE, NO_RESULT};
use server::{Effect, Message, Words};

// The words of no call.
pub fn no_words() -> Words
    ensures { result ≡ no_words }
{
    Words {
        kind: NO_CALL,
        bucket: 0,
        key: Key::empty(),
        expected: None,
        value: None,
    }
}

// What stands for the message of a line that hands none over.
pub fn no_message() -> Message
    ensures { result ≡ no_message }
{
    Message {
        kind: NO_MESSAGE,
        sender: 0,
        receiver: 0,
        bucket: 0,
        election: 0,
        round: 0,
        version: no_version(),
    }
}

// No result, no value and no entry, which stand for the effect where a line asks for none.
pub fn no_effect() -> Effect
    ensures { result ≡ no_effect }
{
    let empty = Slot {
        key: Key::empty(),
        value: Value::empty(),
    };
    Effect {
        result: NO_RESULT,
        value: Value::empty(),
        table: Decoded {
            count: 0,
            slots: [empty; TABLE_ROOM],
        },
    }
}

// A step at this server and bucket that no message brings about.
pub fn line_step(cluster: Counts, server: u32, bucket: u32) -> Step
    ensures { result ≡ line_step cluster server bucket }
{
    Step {
        server,
        bucket,
        index: 0,
        removes: false,
        asked: no_message(),
        copied: 0,
        delivered: 0,
        lost: 0,
        calls: cluster.calls,
    }
}

// A move is carried out.
pub fn move_plan(step: Step, next: Move, effect: Effect) -> Plan
    ensures { result ≡ move_plan step next effect }
{
    Plan::Moves(Carried { step, next, effect })
}
