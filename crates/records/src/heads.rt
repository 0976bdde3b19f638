// Heads of servers in lent words, a block for each.
ghost use Rattle.std.specs.Prelude.{◌≡◌, ◌*◌, ◌<◌};
ghost use Rattle.memory.specs.Rows.{row, put_row};
ghost use Rattle.memory.specs.Layout.{server_room, head_size, head_numbers, head_fields, head_at, put_head};
ghost use Rattle.memory.specs.Lent.{was, is};

use memory::offsets::{
    HEAD_LAST, HEAD_LEADER, HEAD_NUMBER, HEAD_ROLE, HEAD_STOPPED, HEAD_VOTE, VOTE_0, VOTE_1,
    VOTE_2, VOTE_3, VOTE_4, VOTE_5, VOTE_6,
};
use memory::{HEAD_SIZE, HeadWords};
use server::Head;
use server::measures::SERVERS;

// The head of this server.
pub fn load_head(heads: &HeadWords, server: usize) -> Head
    requires { server < server_room }
    ensures { result ≡ head_at heads.now server }
{
    head_fields(heads, server)
}

// The same, with the fields written out in the contract.
fn head_fields(heads: &HeadWords, server: usize) -> Head
    requires { server < server_room }
    ensures { result ≡ head_fields heads.now server }
{
    let base = server * HEAD_SIZE;
    let votes = [
        heads[base + VOTE_0],
        heads[base + VOTE_1],
        heads[base + VOTE_2],
        heads[base + VOTE_3],
        heads[base + VOTE_4],
        heads[base + VOTE_5],
        heads[base + VOTE_6],
    ];
    Head {
        number: heads[base + HEAD_NUMBER],
        vote: heads[base + HEAD_VOTE],
        leader: heads[base + HEAD_LEADER],
        role: heads[base + HEAD_ROLE],
        last: heads[base + HEAD_LAST],
        stopped: heads[base + HEAD_STOPPED],
        votes,
    }
}

// This server gets this head.
pub fn store_head(heads: &mut HeadWords, server: usize, head: Head)
    requires { server < server_room }
    ensures { is heads ≡ put_head (was heads) server head }
{
    let votes = head.votes;
    head_numbers(heads, server, head);
    head_votes(heads, server, votes);
}

fn head_numbers(heads: &mut HeadWords, server: usize, head: Head)
    requires { server < server_room }
    ensures { is heads ≡ put_row (was heads) (server * head_size) 0 (head_numbers head) }
{
    let base = server * HEAD_SIZE;
    heads[base + HEAD_NUMBER] = head.number;
    heads[base + HEAD_VOTE] = head.vote;
    heads[base + HEAD_LEADER] = head.leader;
    heads[base + HEAD_ROLE] = head.role;
    heads[base + HEAD_LAST] = head.last;
    heads[base + HEAD_STOPPED] = head.stopped;
}

fn head_votes(heads: &mut HeadWords, server: usize, votes: [u32; SERVERS])
    requires { server < server_room }
    ensures { is heads ≡ put_row (was heads) (server * head_size) 6 (row 0 0 server_room votes) }
{
    let base = server * HEAD_SIZE;
    heads[base + VOTE_0] = votes[0];
    heads[base + VOTE_1] = votes[1];
    heads[base + VOTE_2] = votes[2];
    heads[base + VOTE_3] = votes[3];
    heads[base + VOTE_4] = votes[4];
    heads[base + VOTE_5] = votes[5];
    heads[base + VOTE_6] = votes[6];
}
