// The calls of the operations: each reads its numbers and lists, and prints its answer and what it may have changed. A value that
// a call may give is 7 before.
use crate::kept::Kept;
use caller_cases::records;
use limits::Caller;
use lines::console::Console;
use lines::operation::Operation;
use particle::NUMBERS;

fn weights(console: &mut Console) {
    let [q] = console.numbers::<1>();
    let mut values = [7; 3];
    console.answer(gondwize::gondwize_weights(q.into(), &mut values));
    console.integers(b'v', &values);
}

fn read_record(console: &mut Console, bytes: &[u8]) {
    let mut values = [7; NUMBERS];
    console.answer(gondwize::gondwize_read_record(bytes, &mut values));
    console.integers(b'r', &values);
}

fn write_record(console: &mut Console, bytes: &mut [u8]) {
    let [identifier, mass, x, y, vx, vy, bxx, bxy, byx, byy, marks] = console.numbers::<11>();
    let code = gondwize::gondwize_write_record(
        identifier.into(),
        mass.into(),
        x.into(),
        y.into(),
        vx.into(),
        vy.into(),
        bxx.into(),
        bxy.into(),
        byx.into(),
        byy.into(),
        marks.into(),
        bytes,
    );
    console.answer(code);
    records::print(console, bytes);
}

fn write_header(console: &mut Console, bytes: &mut [u8]) {
    let [nx, ny, gx, gy, count, steps, kind, width, drag] = console.numbers::<9>();
    let code = gondwize::gondwize_write_header(
        nx.into(),
        ny.into(),
        gx.into(),
        gy.into(),
        count.into(),
        steps.into(),
        kind.into(),
        width.into(),
        drag.into(),
        bytes,
    );
    console.answer(code);
    records::print(console, bytes);
}

// Calls an operation with what is lent of the bytes and the store, or changes what is kept. The program's loop calls it.
pub fn call(operation: Operation, console: &mut Console, kept: &mut Kept) {
    let caller = kept.caller;
    let end = kept.end.min(kept.bytes.len());
    let bytes = &mut kept.bytes[..end];
    match operation {
        Operation::Bench => kept.caller = Caller::Bench,
        Operation::Page => kept.caller = Caller::Page,
        Operation::Records => kept.fill(console),
        Operation::Store => kept.set(console),
        Operation::Weights => weights(console),
        Operation::ReadRecord => read_record(console, bytes),
        Operation::WriteRecord => write_record(console, bytes),
        Operation::WriteHeader => write_header(console, bytes),
        _ => {
            caller_cases::call(operation, console, caller, bytes);
            store_cases::call(operation, console, caller, kept.store, kept.lent, bytes);
        }
    }
}
