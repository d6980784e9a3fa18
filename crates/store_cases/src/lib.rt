// The calls of keep, return and forget, for the program `cases`: each reads a name, and prints its answer and what it may have
// changed.
#![tactic(auto)]

use limits::Caller;
use lines::console::Console;
use lines::lists::NODES;
use lines::operation::Operation;
use store::{NAME_LENGTH, PLACE_LENGTH};

// So many bytes of a buffer are printed behind a return.
const SHOWN: usize = 48;

fn keep(console: &mut Console, caller: Caller, store: &mut [u8], file: &[u8]) {
    let mut room = [0; NODES];
    let name = console.list(&mut room);
    console.answer(by_caller::keep(caller, store, name, file));
}

fn return_to(console: &mut Console, store: &[u8], buffer: &mut [u8]) {
    let mut room = [0; NODES];
    let name = console.list(&mut room);
    let mut size = 7;
    console.answer(gondwize::gondwize_return(store, name, buffer, &mut size));
    console.integers(b'n', &[size]);
    let shown = SHOWN.min(buffer.len());
    console.integers(b'b', &buffer[..shown]);
}

fn forget(console: &mut Console, store: &mut [u8]) {
    let mut room = [0; NODES];
    let name = console.list(&mut room);
    console.answer(gondwize::gondwize_forget(store, name));
}

// The names of a store's places, as the places hold them.
fn names(console: &mut Console, store: &[u8]) {
    console.begin(b's');
    for place in store.chunks_exact(PLACE_LENGTH) {
        for byte in place.iter().take(NAME_LENGTH) {
            console.put_value(*byte);
        }
    }
    console.end();
}

// Calls an operation with as much of the store as is lent, and prints the names of all places; nothing where it is none of the
// three. The program `cases` calls it.
pub fn call(
    operation: Operation,
    console: &mut Console,
    caller: Caller,
    store: &mut [u8],
    lent: usize,
    bytes: &mut [u8],
) {
    let lent = lent.min(store.len());
    match operation {
        Operation::Keep => keep(console, caller, &mut store[..lent], bytes),
        Operation::Return => return_to(console, &store[..lent], bytes),
        Operation::Forget => forget(console, &mut store[..lent]),
        _ => return,
    }
    names(console, store);
}
