// Heads of servers, the second region of the words: a block for each server.
ghost use Rattle.std.specs.Prelude.{◌≡◌, ◌+◌, ◌*◌, ◌<◌};
ghost use Rattle.memory.specs.Rows.{row, put_row};
ghost use Rattle.memory.specs.Layout.{server_room, head_size, head_words, head_numbers, head_of, head_at, put_head};
ghost use Rattle.memory.specs.Lent.{was, is, read_only};
ghost use Rattle.memory_regions.specs.Regions.{heads_place, old_regions, new_regions, with_heads};

use memory::HEAD_SIZE;
use memory::offsets::{
    HEAD_LAST, HEAD_LEADER, HEAD_NUMBER, HEAD_ROLE, HEAD_STOPPED, HEAD_VOTE, VOTE_0, VOTE_1,
    VOTE_2, VOTE_3, VOTE_4, VOTE_5, VOTE_6,
};
use memory_regions::{HEADS_AT, Words};
use server::Head;
use server::measures::SERVERS;

// The head of this server.
pub fn load_head(words: &Words, server: usize) -> Head
    requires { server < server_room }
    ensures { result ≡ head_at (old_regions (read_only words)).heads server }
{
    head_fields(words, server)
}

// The same, with the fields written out in the contract, as words of the whole array.
fn head_fields(words: &Words, server: usize) -> Head
    requires { server < server_room }
    ensures { result ≡ head_of (row (heads_place + server * head_size) 0 head_words words.now) }
{
    let base = HEADS_AT + server * HEAD_SIZE;
    let votes = [
        words[base + VOTE_0],
        words[base + VOTE_1],
        words[base + VOTE_2],
        words[base + VOTE_3],
        words[base + VOTE_4],
        words[base + VOTE_5],
        words[base + VOTE_6],
    ];
    Head {
        number: words[base + HEAD_NUMBER],
        vote: words[base + HEAD_VOTE],
        leader: words[base + HEAD_LEADER],
        role: words[base + HEAD_ROLE],
        last: words[base + HEAD_LAST],
        stopped: words[base + HEAD_STOPPED],
        votes,
    }
}

// This server gets this head.
pub fn store_head(words: &mut Words, server: usize, head: Head)
    requires { server < server_room }
    ensures { new_regions words ≡ with_heads (old_regions words) (put_head (old_regions words).heads server head) }
{
    let votes = head.votes;
    head_numbers(words, server, head);
    head_votes(words, server, votes);
}

fn head_numbers(words: &mut Words, server: usize, head: Head)
    requires { server < server_room }
    ensures { is words ≡ put_row (was words) (heads_place + server * head_size) 0 (head_numbers head) }
{
    let base = HEADS_AT + server * HEAD_SIZE;
    words[base + HEAD_NUMBER] = head.number;
    words[base + HEAD_VOTE] = head.vote;
    words[base + HEAD_LEADER] = head.leader;
    words[base + HEAD_ROLE] = head.role;
    words[base + HEAD_LAST] = head.last;
    words[base + HEAD_STOPPED] = head.stopped;
}

fn head_votes(words: &mut Words, server: usize, votes: [u32; SERVERS])
    requires { server < server_room }
    ensures { is words ≡ put_row (was words) (heads_place + server * head_size) 6 (row 0 0 server_room votes) }
{
    let base = HEADS_AT + server * HEAD_SIZE;
    words[base + VOTE_0] = votes[0];
    words[base + VOTE_1] = votes[1];
    words[base + VOTE_2] = votes[2];
    words[base + VOTE_3] = votes[3];
    words[base + VOTE_4] = votes[4];
    words[base + VOTE_5] = votes[5];
    words[base + VOTE_6] = votes[6];
}
