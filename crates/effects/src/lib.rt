// What a call does to its bucket's table.
#![tactic(auto)]

ghost use Rattle.std.specs.Prelude.{◌≡◌, ℕ};
ghost use Rattle.entries.specs.Decoded.{key_bytes, value_bytes, item_in, table_in, no_value};
ghost use Rattle.table.specs.Form.{same_bytes, same_value};
ghost use Rattle.model.specs.Calls as calls;
ghost use Rattle.model.specs.Calls.{effect, setting};
ghost use Rattle.server.specs.Views.{words_in, effect_in};

use entries::slots::{find, store};
use entries::{Decoded, Key, Value};
use server::codes::{ABSENT, DEL, FULL, GET, LISTED, MISMATCH, NO_RESULT, SET, SETIF, VALUE};
use server::{Effect, Words};

// Whether two values have the same bytes.
pub fn same_value(a: Value, b: Value) -> bool
    ensures { result ≡ same_bytes (value_bytes a) (value_bytes b) }
{
    a.as_slice() == b.as_slice()
}

// Whether two values are the same; an absent one is the same as an absent one alone.
#[tactic(auto, unfolding(table::specs::Form::same_value, entries::specs::Decoded::item_in))]
fn same_item(a: Option<Value>, b: Option<Value>) -> bool
    ensures { result ≡ same_value (item_in a) (item_in b) }
{
    match (a, b) {
        (Some(a), Some(b)) => same_value(a, b),
        (None, None) => true,
        _ => false,
    }
}

// What leaves no value.
fn without_value(res: u32, table: Decoded) -> Effect
    ensures { result ≡ record { value = no_value; table = table; result = res } }
{
    Effect {
        value: Value::empty(),
        table,
        result: res,
    }
}

// `get K`
#[tactic(auto, unfolding(model::specs::Calls::effect, server::specs::Views::effect_in, server::specs::Views::result_in, entries::specs::Decoded::item_in))]
fn getting(key: Key, table: Decoded) -> Effect
    ensures { effect_in result ≡ effect (calls.get (key_bytes key)) (table_in table) }
{
    match find(table, key) {
        Some(value) => Effect {
            value,
            table,
            result: VALUE,
        },
        None => without_value(ABSENT, table),
    }
}

// `keys`
#[tactic(auto, unfolding(model::specs::Calls::effect, server::specs::Views::effect_in, server::specs::Views::result_in))]
fn listing(table: Decoded) -> Effect
    ensures { (b : ℕ) → effect_in result ≡ effect (calls.keys b) (table_in table) }
{
    without_value(LISTED, table)
}

// `set K V`: the new table is to be written, or there is no room.
#[tactic(auto, unfolding(model::specs::Calls::setting, server::specs::Views::effect_in, server::specs::Views::result_in))]
pub fn setting(key: Key, item: Option<Value>, old: Decoded) -> Effect
    ensures { effect_in result ≡ setting (key_bytes key) (item_in item) (table_in old) }
{
    match store(old, key, item) {
        Ok(table) => without_value(NO_RESULT, table),
        Err(_) => without_value(FULL, old),
    }
}

// `setif K E V`: the present value is looked at before there is found to be no room.
#[tactic(auto, unfolding(model::specs::Calls::effect, server::specs::Views::effect_in, server::specs::Views::result_in))]
fn setting_if(key: Key, expected: Option<Value>, item: Option<Value>, table: Decoded) -> Effect
    ensures { effect_in result ≡ effect (calls.setif (key_bytes key) (item_in expected) (item_in item)) (table_in table) }
{
    let present = find(table, key);
    if same_item(present, expected) {
        setting(key, item, table)
    } else {
        without_value(MISMATCH, table)
    }
}

// What is left to do of a call once its bucket's table is read: `del K` is `set K -`.
#[tactic(auto, unfolding(model::specs::Calls::effect, server::specs::Views::words_by, entries::specs::Decoded::item_in))]
pub fn effect(words: Words, table: Decoded) -> Effect
    ensures { effect_in result ≡ effect (words_in words) (table_in table) }
{
    match words.kind {
        GET => getting(words.key, table),
        SET => setting(words.key, words.value, table),
        SETIF => setting_if(words.key, words.expected, words.value, table),
        DEL => setting(words.key, None, table),
        _ => listing(table),
    }
}
