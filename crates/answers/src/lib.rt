// The answers of a step in lent words, in blocks of four: the call's number, its result and its rounds.
#![tactic(auto)]

ghost use Rattle.std.specs.Prelude.{◌≡◌, ◌<◌, ◌≤◌};
ghost use Rattle.model.specs.Measures.{max_buckets, most_answers};
ghost use Rattle.memory.specs.Layout.{server_room, slot_room};
ghost use Rattle.memory.specs.Lent.{was, is};
ghost use Rattle.views.specs.Changes.{put_answer, ended_calls, answered};
ghost use Rattle.answers.specs.Answers.{EndedCall, Listed};

use memory::offsets::{ANSWER_CALL, ANSWER_RESULT, ANSWER_ROUNDS};
use memory::{ANSWER_SIZE, AnswerWords, SlotWords, slot_of};
use moves::Move;
use open_calls::ended;
use records::slots::load_call;
use server::Answer;
use server::codes::NO_RESULT;
use server::kinds::is_open_call;

// The answer at this place.
fn put_answer(answers: &mut AnswerWords, place: usize, answer: Answer)
    requires { place < most_answers }
    ensures { is answers ≡ put_answer (was answers) place answer }
{
    let base = place * ANSWER_SIZE;
    answers[base + ANSWER_CALL] = answer.call;
    answers[base + ANSWER_RESULT] = answer.result;
    answers[base + ANSWER_ROUNDS] = answer.rounds;
}

// The call of this slot ends, where one is open; `count` answers were written before.
fn end_call(answers: &mut AnswerWords, slots: &SlotWords, slot: usize, count: usize) -> usize
    requires { (slot < slot_room) × (count < most_answers) }
    ensures { EndedCall slots.now slot (was answers) count (is answers) result }
{
    let call = load_call(slots, slot);
    if is_open_call(call.kind) {
        put_answer(answers, count, ended(call));
        return count + 1;
    }
    count
}

// The open calls of this server end, in bucket order.
fn end_calls(answers: &mut AnswerWords, slots: &SlotWords, server: usize, buckets: usize) -> u32
    requires { (server < server_room) × (buckets ≤ max_buckets) }
    ensures { Listed (ended_calls slots.now server buckets (was answers)) (is answers) result }
{
    let mut count = 0;
    for bucket in 0..buckets {
        count = end_call(answers, slots, slot_of(server, bucket), count);
    }
    count as u32
}

// What a move answers: the call of its slot, or all open calls where leading ends, unless they are forgotten. The slots are those before
// the move.
pub fn answer(
    answers: &mut AnswerWords,
    slots: &SlotWords,
    server: usize,
    buckets: usize,
    next: Move,
) -> u32
    requires { (server < server_room) × (buckets ≤ max_buckets) }
    ensures { Listed (answered slots.now buckets server next (was answers)) (is answers) result }
{
    let own = next.answer;
    if next.ceases {
        if next.forgets {
            return 0;
        }
        return end_calls(answers, slots, server, buckets);
    }
    if own.result == NO_RESULT {
        return 0;
    }
    put_answer(answers, 0, own);
    1
}
