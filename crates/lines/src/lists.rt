// The buffers of a grid.
ghost use Rattle.std.specs.Prelude.{◌≡◌, pos, replicate};

use crate::console::Console;

// The room of a grid's buffer, and of a name's.
pub const NODES: usize = 24;

#[derive(Drop)]
pub struct Grid {
    pub mass: [u64; NODES],
    pub x: [i64; NODES],
    pub y: [i64; NODES],
}

impl Grid {
    // All zero.
    pub fn new() -> Grid
        ensures { (result.mass ≡ replicate 24 0) × (result.x ≡ replicate 24 (pos 0)) × (result.y ≡ replicate 24 (pos 0)) }
    {
        Grid {
            mass: [0; NODES],
            x: [0; NODES],
            y: [0; NODES],
        }
    }

    // Prints the buffers, whole.
    pub fn print(&self, console: &mut Console) {
        console.integers(b'm', &self.mass);
        console.integers(b'x', &self.x);
        console.integers(b'y', &self.y);
    }
}
