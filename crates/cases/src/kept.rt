// What is kept from line to line: who calls, the bytes of the calls, and the store.
use limits::Caller;
use lines::console::Console;
use particle::{NUMBERS, RECORD_LENGTH};
use store::STORE_LENGTH;

// So many bits of a record hold each of its fields, the first highest.
const WIDTHS: [u32; NUMBERS] = [16, 10, 12, 12, 7, 7, 12, 12, 12, 12, 8];

// The caller, the records or the file, the store, and how much of each is lent.
#[derive(Drop)]
pub struct Kept<'a> {
    pub caller: Caller,
    pub bytes: &'a mut [u8],
    pub end: usize,
    pub store: &'a mut [u8],
    pub lent: usize,
}

impl<'a> Kept<'a> {
    pub fn new(bytes: &'a mut [u8], store: &'a mut [u8]) -> Kept<'a> {
        Kept {
            caller: Caller::Bench,
            bytes,
            end: 0,
            store,
            lent: STORE_LENGTH,
        }
    }

    // Reads where the records begin and end, and the fields of the first one. Identifiers and marks rise from record to record.
    pub fn fill(&mut self, console: &mut Console) {
        let [from, end] = console.numbers::<2>();
        let mut fields = console.numbers::<NUMBERS>().map(u64::from);
        let from = self.bytes.len().min(from.into());
        for part in self.bytes[from..].chunks_mut(RECORD_LENGTH) {
            for (byte, packed) in part.iter_mut().zip(packed(&fields)) {
                *byte = packed;
            }
            fields[0] = fields[0].wrapping_add(1);
            fields[NUMBERS - 1] = fields[NUMBERS - 1].wrapping_add(1);
        }
        self.end = end.into();
    }

    // Reads how much of the store is lent, and the index of one byte and what it is then, so that a store can be damaged.
    pub fn set(&mut self, console: &mut Console) {
        let [lent, at, byte] = console.numbers::<3>();
        if let Some(place) = self.store.get_mut(usize::from(at)) {
            *place = byte.into();
        }
        self.lent = lent.into();
    }
}

// A record from its fields, each cut to its bits, so that there can be some that break a limit.
fn packed(fields: &[u64; NUMBERS]) -> [u8; RECORD_LENGTH] {
    let mut bits = 0u128;
    for (field, width) in fields.iter().zip(&WIDTHS) {
        let high = bits.wrapping_shl(*width);
        bits = high | u128::from(field & !u64::MAX.wrapping_shl(*width));
    }
    let mut record = [0; RECORD_LENGTH];
    record.copy_from_slice(&bits.to_be_bytes()[1..]);
    record
}
