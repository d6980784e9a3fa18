// The operations for programs in other languages: numbers and slices in, one number out, and values through the caller's arrays.
// Those that have two callers are in crate `by_caller`. Crate `gondwize_c` exports all of them to C.
#![tactic(auto)]

ghost use Rattle.std.specs.Prelude.{◌≡◌};
ghost use Rattle.particle.specs.Record.{numbers, read_answer, write_answer, written};
ghost use Rattle.spline.specs.Answers.{weights_answer};
ghost use Rattle.bath_file.specs.File as file;
ghost use Rattle.store.specs.Operations.{return_answer, return_leaves, forget_answer, forget_leaves, length_of};
ghost use Rattle.wide.specs.Values.{weight_values, particle_with, header_with};
ghost use Rattle.coding.specs.Coded.{coded, Gives};

use particle::NUMBERS;
use wide::answer;

// Read a record: eleven values.
pub fn gondwize_read_record(bytes: &[u8], values: &mut [i64; NUMBERS]) -> u64
    ensures { Gives (read_answer 0 bytes.now) numbers values.old result values.new }
{
    match record_reader::read_record(bytes) {
        Err(refusal) => answer::code(refusal),
        Ok(p) => {
            *values = record_reader::numbers_of(p);
            0
        }
    }
}

// Write a record.
pub fn gondwize_write_record(
    identifier: u16,
    mass: u64,
    x: u64,
    y: u64,
    vx: i64,
    vy: i64,
    bxx: i64,
    bxy: i64,
    byx: i64,
    byy: i64,
    marks: u8,
    bytes: &mut [u8],
) -> u64
    ensures answer { result ≡ coded (write_answer (particle_with identifier mass x y vx vy bxx bxy byx byy marks) bytes.old) }
    ensures buffer { bytes.new ≡ written (particle_with identifier mass x y vx vy bxx bxy byx byy marks) bytes.old }
{
    let p = wide::particle(identifier, mass, x, y, vx, vy, bxx, bxy, byx, byy, marks);
    coding::coded(record_writer::write_record(p, bytes))
}

// Weights: three values.
pub fn gondwize_weights(q: i64, values: &mut [i64; 3]) -> u64
    ensures { Gives (weights_answer q) weight_values values.old result values.new }
{
    match spline::weights(q) {
        Err(refusal) => answer::code(refusal),
        Ok(w) => {
            *values = wide::of_weights(w);
            0
        }
    }
}

// Write a header.
pub fn gondwize_write_header(
    nx: usize,
    ny: usize,
    gx: i64,
    gy: i64,
    count: usize,
    steps: usize,
    kind: usize,
    width: usize,
    drag: usize,
    bytes: &mut [u8],
) -> u64
    ensures answer { result ≡ coded (file.write_answer (header_with nx ny gx gy count steps kind width drag) bytes.old) }
    ensures buffer { bytes.new ≡ file.written (header_with nx ny gx gy count steps kind width drag) bytes.old }
{
    let h = wide::header(nx, ny, gx, gy, count, steps, kind, width, drag);
    coding::coded(header_writer::write_header(h, bytes))
}

// Return: one value, the length of the file.
pub fn gondwize_return(store: &[u8], name: &[u8], buffer: &mut [u8], size: &mut u64) -> u64
    ensures answer { Gives (length_of (return_answer store.now name.now buffer.old)) (λ n. n) size.old result size.new }
    ensures buffer { buffer.new ≡ return_leaves store.now name.now buffer.old }
{
    match store_calls::return_to(store, name, buffer) {
        Err(refusal) => answer::code(refusal),
        Ok(found) => {
            *size = found as u64;
            0
        }
    }
}

// Forget.
pub fn gondwize_forget(store: &mut [u8], name: &[u8]) -> u64
    ensures answer { result ≡ coded (forget_answer store.old name.now) }
    ensures store { store.new ≡ forget_leaves store.old name.now }
{
    coding::coded(store_calls::forget(store, name))
}
