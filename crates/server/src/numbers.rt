// Majorities, the order of versions, and seven places: how often a number stands in them, and what stands at one.
ghost use Rattle.std.specs.Prelude.{◌≡◌, ◌==◌, take, slice_index_or, slice_set, count_by};
ghost use Rattle.model.specs.Measures.{majority};
ghost use Rattle.model.specs.Cluster.{above};
ghost use Rattle.server.specs.Views.{version_in};

use crate::Version;
use crate::measures::SERVERS;

// A majority of the servers: half of them, rounded down, plus one.
#[tactic(auto, unfolding(model::specs::Measures::majority))]
pub fn majority(servers: u32) -> u32
    ensures { result ≡ majority servers }
{
    servers / 2 + 1
}

// Whether a version is above another.
#[tactic(auto, unfolding(model::specs::Cluster::above))]
pub fn above(version: Version, other: Version) -> bool
    ensures { result ≡ above (version_in version) (version_in other) }
{
    version > other
}

// How many of the places of that many servers hold the word.
pub fn count(servers: u32, places: [u32; SERVERS], word: u32) -> u32
    ensures { result ≡ count_by (λ x. x == word) (take servers places) }
{
    places
        .iter()
        .take(servers as usize)
        .filter(|place| **place == word)
        .count() as u32
}

// The places with the word at one of them; there is none at SERVERS or above. After `get_mut` a proof would not know the array.
pub fn placed(mut places: [u32; SERVERS], at: u32, word: u32) -> [u32; SERVERS]
    ensures { result ≡ slice_set places at word }
{
    let place = at as usize;
    if place < SERVERS {
        places[place] = word;
    }
    places
}

// What stands at one of the places of that many servers, and `past` where there is none.
pub fn place_at(servers: u32, places: [u32; SERVERS], at: u32, past: u32) -> u32
    ensures { result ≡ slice_index_or (take servers places) at past }
{
    match places.iter().take(servers as usize).nth(at as usize) {
        Some(word) => *word,
        None => past,
    }
}
