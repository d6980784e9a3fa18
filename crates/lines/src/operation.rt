// The names that a line may begin with: what it calls, or what it changes.
use crate::words::{self, Number};

#[derive(Clone, Copy, Debug)]
pub enum Operation {
    Weights,
    ReadRecord,
    WriteRecord,
    CheckSet,
    Totals,
    Scatter,
    AddingScatter,
    Update,
    Gather,
    Step,
    Run,
    ReadFile,
    WriteHeader,
    Keep,
    Return,
    Forget,
    Records,
    Store,
    Page,
    Bench,
}

const NAMES: [(&[u8], Operation); 20] = [
    (b"weights", Operation::Weights),
    (b"read", Operation::ReadRecord),
    (b"write", Operation::WriteRecord),
    (b"check", Operation::CheckSet),
    (b"totals", Operation::Totals),
    (b"scatter", Operation::Scatter),
    (b"adding", Operation::AddingScatter),
    (b"update", Operation::Update),
    (b"gather", Operation::Gather),
    (b"step", Operation::Step),
    (b"run", Operation::Run),
    (b"file", Operation::ReadFile),
    (b"header", Operation::WriteHeader),
    (b"keep", Operation::Keep),
    (b"return", Operation::Return),
    (b"forget", Operation::Forget),
    (b"records", Operation::Records),
    (b"store", Operation::Store),
    (b"page", Operation::Page),
    (b"bench", Operation::Bench),
];

impl Operation {
    // The one whose name makes this number.
    pub fn named(number: Number) -> Option<Operation> {
        for (name, operation) in &NAMES {
            if number_of(name) == u64::from(number) {
                return Some(*operation);
            }
        }
        None
    }
}

fn number_of(name: &[u8]) -> u64 {
    let mut number = 0;
    for byte in name {
        number = words::with(number, *byte);
    }
    number
}
