// The form of a store: each place by itself, and that no name stands in two.
#![tactic(auto)]

ghost use Rattle.std.specs.Prelude.{◌≡◌, ◌+◌, ◌≤◌, ◌<◌, length, drop};
ghost use Rattle.bath_file.specs.Layout.{header_length};
ghost use Rattle.store.specs.Names.{valid_held_name};
ghost use Rattle.store.specs.Form.{place_length, place_count, store_length, file_length, valid_room, occupied, places, first_named, valid_store};
ghost use Rattle.store.specs.Internal.{valid_at, Found};

use bath_file::HEADER_LENGTH;
use limits::Caller;
use particle::RECORD_LENGTH;
use store::{NAME_LENGTH, PLACE_COUNT, PLACE_LENGTH, STORE_LENGTH};

// The length of the file at the front of a room, by the count in its header. `valid_room` calls it, and so does crate store_place,
// with the room of a place.
pub fn file_length(room: &[u8]) -> usize
    requires { header_length ≤ length room.now }
    ensures { result ≡ file_length room.now }
{
    let h = file_reader::unpack(&room[..HEADER_LENGTH]);
    HEADER_LENGTH + RECORD_LENGTH * h.count
}

// A room has one file that the bench accepts, and zeros after it. `occupied` calls it with the room of a place.
fn valid_room(room: &[u8]) -> bool
    requires { header_length ≤ length room.now }
    ensures { result ≡ valid_room room.now }
{
    let end = file_length(room);
    if room.len() < end {
        return false;
    }
    file_reader::read_file(Caller::Bench, &room[..end]).is_ok()
        && store_bytes::all_zero(&room[end..])
}

// A name as a place holds it: letters, and zeros after them.
fn valid_held_name(held: &[u8]) -> bool
    ensures { result ≡ valid_held_name held.now }
{
    let end = store_bytes::letters(held);
    0 < end && store_bytes::all_zero(&held[end..])
}

// A place holds a file under a name. `valid_at` calls it with a place.
fn occupied(place: &[u8]) -> bool
    requires { length place.now ≡ place_length }
    ensures { result ≡ occupied place.now }
{
    valid_held_name(&place[..NAME_LENGTH]) && valid_room(&place[NAME_LENGTH..])
}

// The first place from `from` on that has these eight bytes as its name. `valid_at` calls it, and so does crate store_place, with a
// store of its length.
pub fn find(store: &[u8], from: usize, held: &[u8]) -> Option<usize>
    requires { (length store.now ≡ store_length) × (from ≤ place_count) }
    ensures { Found (from + first_named held.now (drop from (places store.now))) result }
{
    for k in from..PLACE_COUNT {
        let at = PLACE_LENGTH * k;
        if store_bytes::same(&store[at..at + NAME_LENGTH], held) {
            return Some(k);
        }
    }
    None
}

// One turn of `valid_store`.
fn valid_at(store: &[u8], k: usize) -> bool
    requires { (length store.now ≡ store_length) × (k < place_count) }
    ensures { result ≡ valid_at store.now k }
{
    let at = PLACE_LENGTH * k;
    let place = &store[at..at + PLACE_LENGTH];
    store_bytes::all_zero(place)
        || occupied(place) && find(store, k + 1, &place[..NAME_LENGTH]).is_none()
}

// Any bytes are a store of its length and form.
pub fn valid_store(store: &[u8]) -> bool
    ensures { result ≡ valid_store store.now }
{
    if store.len() != STORE_LENGTH {
        return false;
    }
    for k in 0..PLACE_COUNT {
        if !valid_at(store, k) {
            return false;
        }
    }
    true
}
