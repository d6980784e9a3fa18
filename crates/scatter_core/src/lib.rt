// The particle-to-grid transfer on unpacked particles. A scatter clears the grids and adds the particle set to them.
#![tactic(auto)]

ghost use Rattle.scatter_core.specs.Scatter.{SetReady, ScatterReady, NthReady, AddsNth, Adds, Scatters};

use unpacked::NUMBERS;

// Adds the shares of the particle with index k. `add_all` calls it.
fn add_nth(
    particles: &[i16],
    k: usize,
    nx: usize,
    ny: usize,
    table: &[[u16; 3]; 64],
    d: u64,
    mass: &mut [u64],
    px: &mut [i64],
    py: &mut [i64],
)
    requires { NthReady nx ny particles.now k table.now d mass.old px.old py.old }
    ensures { AddsNth nx ny particles.now k table.now d mass.old px.old py.old mass.new px.new py.new }
{
    let at = NUMBERS * k;
    let m = u64::from(unpacked::natural_at(particles, at));
    let x = usize::from(unpacked::natural_at(particles, at + 1));
    let y = usize::from(unpacked::natural_at(particles, at + 2));
    let vx = unpacked::number_at(particles, at + 3);
    let vy = unpacked::number_at(particles, at + 4);
    let bxx = unpacked::number_at(particles, at + 5);
    let bxy = unpacked::number_at(particles, at + 6);
    let byx = unpacked::number_at(particles, at + 7);
    let byy = unpacked::number_at(particles, at + 8);
    scatter_particle::add_particle(
        m, x, y, vx, vy, bxx, bxy, byx, byy, nx, ny, table, d, mass, px, py,
    );
}

// Adds a particle set to what the grids hold. `scatter_all` and the scatter call it.
pub fn add_all(
    particles: &[i16],
    nx: usize,
    ny: usize,
    table: &[[u16; 3]; 64],
    d: u64,
    mass: &mut [u64],
    px: &mut [i64],
    py: &mut [i64],
)
    requires { SetReady nx ny particles.now table.now d mass.old px.old py.old }
    ensures { Adds nx ny particles.now table.now d mass.old px.old py.old mass.new px.new py.new }
{
    let count = particles.len() / NUMBERS;
    for k in 0..count {
        add_nth(particles, k, nx, ny, table, d, mass, px, py);
    }
}

// Clears the grids and adds every particle. The step calls it.
pub fn scatter_all(
    particles: &[i16],
    nx: usize,
    ny: usize,
    table: &[[u16; 3]; 64],
    d: u64,
    mass: &mut [u64],
    px: &mut [i64],
    py: &mut [i64],
)
    requires { ScatterReady nx ny particles.now table.now d mass.old px.old py.old }
    ensures { Scatters nx ny particles.now table.now d mass.new px.new py.new }
{
    mass.fill(0);
    px.fill(0);
    py.fill(0);
    add_all(particles, nx, ny, table, d, mass, px, py);
}
