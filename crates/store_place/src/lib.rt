// One place of a store: where a name stands, and a place written, read and cleared.
#![tactic(auto)]

ghost use Rattle.std.specs.Prelude.{◌≡◌, ◌++◌, ◌≤◌, ◌<◌, length, drop};
ghost use Rattle.store.specs.Names.{name_length};
ghost use Rattle.store.specs.Form.{most_file, place_length, place_count, store_length, file_in, place_at, place_of};
ghost use Rattle.store.specs.Operations.{with_place, place_for, kept_place, free_place};
ghost use Rattle.store.specs.Internal.{Found, Keepable, Copyable};

use store::{MOST_FILE, NAME_LENGTH, PLACE_LENGTH};

// The place that has a name. `place_for` calls it, and so does crate store_calls, with a store of its length and a name that is not
// too long.
pub fn place_of(store: &[u8], name: &[u8]) -> Option<usize>
    requires { (length store.now ≡ store_length) × (length name.now ≤ name_length) }
    ensures { Found (place_of store.now name.now) result }
{
    let mut held = [0u8; NAME_LENGTH];
    store_bytes::fill(name, &mut held);
    store_form::find(store, 0, &held)
}

// The place that a bath takes. Crate store_calls calls it with the same.
pub fn place_for(store: &[u8], name: &[u8]) -> Option<usize>
    requires { (length store.now ≡ store_length) × (length name.now ≤ name_length) }
    ensures { Found (place_for store.now name.now) result }
{
    match place_of(store, name) {
        Some(k) => Some(k),
        None => place_of(store, &[]),
    }
}

// Writes a place. `put` calls it with one, and with a name and a file that it has room for.
fn write_place(place: &mut [u8], name: &[u8], file: &[u8])
    requires { (length place.old ≡ place_length) × ((length name.now ≤ name_length) × (length file.now ≤ most_file)) }
    ensures { place.new ≡ kept_place name.now file.now }
{
    store_bytes::fill(name, &mut place[..NAME_LENGTH]);
    store_bytes::fill(file, &mut place[NAME_LENGTH..]);
}

// Writes place k of a store. Crate store_calls calls it with the place that a bath takes.
pub fn put(store: &mut [u8], k: usize, name: &[u8], file: &[u8])
    requires { (k < place_count) × Keepable store.old name.now file.now }
    ensures { store.new ≡ with_place store.old k (kept_place name.now file.now) }
{
    let at = PLACE_LENGTH * k;
    write_place(&mut store[at..at + PLACE_LENGTH], name, file);
}

// Copies the file of place k to the front of a buffer. Crate store_calls calls it with a place that holds one.
pub fn copy_file(store: &[u8], k: usize, buffer: &mut [u8]) -> usize
    requires { Copyable store.now k buffer.old }
    ensures answer { result ≡ length (file_in (place_at store.now k)) }
    ensures buffer { buffer.new ≡ file_in (place_at store.now k) ++ drop (length (file_in (place_at store.now k))) buffer.old }
{
    let at = PLACE_LENGTH * k + NAME_LENGTH;
    let room = &store[at..at + MOST_FILE];
    let end = store_form::file_length(room);
    buffer[..end].copy_from_slice(&room[..end]);
    end
}

// Clears place k of a store. Crate store_calls calls it with the place that has a name.
pub fn free(store: &mut [u8], k: usize)
    requires { (length store.old ≡ store_length) × (k < place_count) }
    ensures { store.new ≡ with_place store.old k free_place }
{
    let at = PLACE_LENGTH * k;
    store_bytes::clear(&mut store[at..at + PLACE_LENGTH]);
}
