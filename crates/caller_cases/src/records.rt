// The records as a call left them.
use lines::console::Console;
use particle::{NUMBERS, RECORD_LENGTH};

// Each record's fields, or its bytes if it cannot be read, on a line of their own.
pub fn print(console: &mut Console, bytes: &[u8]) {
    for record in bytes.chunks(RECORD_LENGTH) {
        let mut fields = [0; NUMBERS];
        if gondwize::gondwize_read_record(record, &mut fields) == 0 {
            console.integers(b'r', &fields);
        } else {
            console.integers(b'b', record);
        }
    }
}
