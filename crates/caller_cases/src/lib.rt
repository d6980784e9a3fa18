// The calls of the operations that have two callers, for the program `cases`: each reads its numbers and lists, and prints its
// answer and what it may have changed. A value that a call may give is 7 before.
#![tactic(auto)]

pub mod records;

use limits::Caller;
use lines::console::Console;
use lines::lists::{Grid, NODES};
use lines::operation::Operation;
use totals::SUMS;
use wide::SETTINGS;

fn check_set(console: &mut Console, caller: Caller, bytes: &[u8]) {
    let [nx, ny] = console.numbers::<2>();
    let mut count = 7;
    console.answer(by_caller::check_set(caller, nx.into(), ny.into(), bytes, &mut count));
    console.integers(b'n', &[count]);
}

fn totals(console: &mut Console, caller: Caller, bytes: &[u8]) {
    let [nx, ny] = console.numbers::<2>();
    let mut values = [7; SUMS];
    console.answer(by_caller::totals(caller, nx.into(), ny.into(), bytes, &mut values));
    console.integers(b'v', &values);
}

fn scatter(console: &mut Console, caller: Caller, bytes: &[u8]) {
    let [nx, ny] = console.numbers::<2>();
    let mut grid = Grid::new();
    let code = by_caller::scatter(
        caller,
        nx.into(),
        ny.into(),
        bytes,
        console.list(&mut grid.mass),
        console.list(&mut grid.x),
        console.list(&mut grid.y),
    );
    console.answer(code);
    grid.print(console);
}

// In form as `scatter`, with another operation.
fn adding_scatter(console: &mut Console, caller: Caller, bytes: &[u8]) {
    let [nx, ny] = console.numbers::<2>();
    let mut grid = Grid::new();
    let code = by_caller::adding_scatter(
        caller,
        nx.into(),
        ny.into(),
        bytes,
        console.list(&mut grid.mass),
        console.list(&mut grid.x),
        console.list(&mut grid.y),
    );
    console.answer(code);
    grid.print(console);
}

fn update(console: &mut Console, caller: Caller) {
    let [nx, ny, gx, gy, kind, width, drag] = console.numbers::<7>();
    let mut grid = Grid::new();
    let code = by_caller::update(
        caller,
        nx.into(),
        ny.into(),
        gx.into(),
        gy.into(),
        kind.into(),
        width.into(),
        drag.into(),
        console.list(&mut grid.mass),
        console.list(&mut grid.x),
        console.list(&mut grid.y),
    );
    console.answer(code);
    grid.print(console);
}

fn gather(console: &mut Console, caller: Caller, bytes: &mut [u8]) {
    let [nx, ny] = console.numbers::<2>();
    let mut x = [0; NODES];
    let mut y = [0; NODES];
    let ux = console.list(&mut x);
    let uy = console.list(&mut y);
    console.answer(by_caller::gather(caller, nx.into(), ny.into(), bytes, ux, uy));
    records::print(console, bytes);
}

fn step(console: &mut Console, caller: Caller, bytes: &mut [u8]) {
    let [nx, ny, gx, gy, kind, width, drag] = console.numbers::<7>();
    let mut grid = Grid::new();
    let code = by_caller::step(
        caller,
        nx.into(),
        ny.into(),
        gx.into(),
        gy.into(),
        kind.into(),
        width.into(),
        drag.into(),
        bytes,
        console.list(&mut grid.mass),
        console.list(&mut grid.x),
        console.list(&mut grid.y),
    );
    console.answer(code);
    records::print(console, bytes);
    grid.print(console);
}

fn run(console: &mut Console, caller: Caller, bytes: &mut [u8]) {
    let [nx, ny, gx, gy, kind, width, drag, steps] = console.numbers::<8>();
    let mut grid = Grid::new();
    let mut completed = 7;
    let code = coding::run_told(
        caller,
        nx.into(),
        ny.into(),
        gx.into(),
        gy.into(),
        kind.into(),
        width.into(),
        drag.into(),
        steps.into(),
        bytes,
        console.list(&mut grid.mass),
        console.list(&mut grid.x),
        console.list(&mut grid.y),
        &mut completed,
    );
    console.answer(code);
    records::print(console, bytes);
    console.integers(b'n', &[completed]);
    grid.print(console);
}

fn read_file(console: &mut Console, caller: Caller, bytes: &[u8]) {
    let mut values = [7; SETTINGS];
    console.answer(by_caller::read_file(caller, bytes, &mut values));
    console.integers(b'v', &values);
}

// Calls an operation for a caller; nothing where it is none of these. The program `cases` calls it.
pub fn call(operation: Operation, console: &mut Console, caller: Caller, bytes: &mut [u8]) {
    match operation {
        Operation::CheckSet => check_set(console, caller, bytes),
        Operation::Totals => totals(console, caller, bytes),
        Operation::Scatter => scatter(console, caller, bytes),
        Operation::AddingScatter => adding_scatter(console, caller, bytes),
        Operation::Update => update(console, caller),
        Operation::Gather => gather(console, caller, bytes),
        Operation::Step => step(console, caller, bytes),
        Operation::Run => run(console, caller, bytes),
        Operation::ReadFile => read_file(console, caller, bytes),
        _ => {}
    }
}
