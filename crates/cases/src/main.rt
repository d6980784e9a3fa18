// Runs the calls that standard input lists. It prints its input, and behind each call's line what the call answered and what it
// may have changed. The head of the file `stdin` says how a line is written and what is printed.
#![tactic(auto)]

mod calls;
mod kept;

use kept::Kept;
use lines::console::Console;
use lines::operation::Operation;
use particle::RECORD_LENGTH;
use particles::SET_LENGTH;
use store::STORE_LENGTH;

// Room for one record more than a set may have.
const BYTES: usize = SET_LENGTH + RECORD_LENGTH;

// Room for a store, and one byte more.
const STORE: usize = STORE_LENGTH + 1;

// The most lines of an input.
const MOST_LINES: u32 = 65536;

// The lines, one after the other, up to the last name that has a byte behind it. A name that is not known is passed over.
fn serve(console: &mut Console, kept: &mut Kept) {
    for _ in 0..MOST_LINES {
        let name = console.item();
        if name.end.is_none() {
            return;
        }
        if let Some(operation) = Operation::named(name.number) {
            calls::call(operation, console, kept);
        }
    }
}

fn main(rt: HostRuntime) {
    let mut bytes = [0; BYTES];
    let mut store = [0; STORE];
    serve(
        &mut Console::new(&rt),
        &mut Kept::new(&mut bytes, &mut store),
    );
}
