// A particle record: its fields. What reading and writing one do stands in specs/, what follows from it in proofs/.
#![tactic(auto)]

// The length of a particle record in bytes.
pub const RECORD_LENGTH: usize = 15;

// How many numbers a particle has.
pub const NUMBERS: usize = 11;

#[derive(Clone, Copy)]
pub struct Particle {
    pub identifier: u16,
    pub mass: u16,
    pub x: u16,
    pub y: u16,
    pub vx: i16,
    pub vy: i16,
    pub bxx: i16,
    pub bxy: i16,
    pub byx: i16,
    pub byy: i16,
    pub marks: u8,
}
