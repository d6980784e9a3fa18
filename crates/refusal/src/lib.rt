// Why a call is refused: one case for each number of the lists of documents 01 and 02, with the record or node where that list gives a place.
#![tactic(auto)]

ghost use Rattle.std.specs.Prelude.{◌≡◌};
ghost use Rattle.refusal.specs.Refused.{number, place};

#[derive(Clone, Copy)]
pub enum Refusal {
    // 1: a slice has the wrong length, or a store another form
    Length,
    // 2: Nx or Ny is not 4 to 48
    GridSize,
    // 3: a file's count is above 4096
    Count,
    // 4: a mass is not 1 to 1023
    Mass(usize),
    // 5: a velocity is beyond ±63
    Velocity(usize),
    // 6: an entry of B is beyond ±2047
    Affine(usize),
    // 7: a position is off the grid, or an offset is not −32 to 31
    Position(usize),
    // 8: an identifier is not above the one before
    Identifier(usize),
    // 9: the mass so far is above 131,072
    TotalMass(usize),
    // 10: gravity is beyond ±4096
    Gravity,
    // 11: a node's mass is above 2^43, or 0 with a momentum
    NodeMass(usize),
    // 12: a node's velocity is beyond ±131,072
    NodeVelocity(usize),
    // 13: a gathered velocity is beyond ±63
    NewVelocity(usize),
    // 14: a gathered entry of B is beyond ±2047
    NewAffine(usize),
    // 15: a new position is off the grid
    NewPosition(usize),
    // 16: a file's spare bits are not zero
    SpareBits,
    // 17: more than 10,000 steps
    Steps,
    // 18: an edge of no kind, or a width that its kind does not have
    Edge,
    // 19: drag above 255
    Drag,
    // 20: a present node's mass is above 2^43, or its momentum beyond 457,536 times its mass
    PresentNode(usize),
    // 21: a node's mass would pass 2^43
    AddedMass(usize),
    // 22: a name is not 1 to 8 letters A to Z
    Name,
    // 23: a store does not hold the name
    NotHeld,
    // 24: a store holds four other names
    FullStore,
}

impl Refusal {
    // The number of a refusal in these lists.
    pub fn number(self) -> u8
        ensures { result ≡ number self }
    {
        match self {
            Refusal::Length => 1,
            Refusal::GridSize => 2,
            Refusal::Count => 3,
            Refusal::Mass(_) => 4,
            Refusal::Velocity(_) => 5,
            Refusal::Affine(_) => 6,
            Refusal::Position(_) => 7,
            Refusal::Identifier(_) => 8,
            Refusal::TotalMass(_) => 9,
            Refusal::Gravity => 10,
            Refusal::NodeMass(_) => 11,
            Refusal::NodeVelocity(_) => 12,
            Refusal::NewVelocity(_) => 13,
            Refusal::NewAffine(_) => 14,
            Refusal::NewPosition(_) => 15,
            Refusal::SpareBits => 16,
            Refusal::Steps => 17,
            Refusal::Edge => 18,
            Refusal::Drag => 19,
            Refusal::PresentNode(_) => 20,
            Refusal::AddedMass(_) => 21,
            Refusal::Name => 22,
            Refusal::NotHeld => 23,
            Refusal::FullStore => 24,
        }
    }

    // The record or node of a refusal, or 0 where there is none.
    pub fn place(self) -> usize
        ensures { result ≡ place self }
    {
        match self {
            Refusal::Length => 0,
            Refusal::GridSize => 0,
            Refusal::Count => 0,
            Refusal::Mass(record) => record,
            Refusal::Velocity(record) => record,
            Refusal::Affine(record) => record,
            Refusal::Position(record) => record,
            Refusal::Identifier(record) => record,
            Refusal::TotalMass(record) => record,
            Refusal::Gravity => 0,
            Refusal::NodeMass(node) => node,
            Refusal::NodeVelocity(node) => node,
            Refusal::NewVelocity(record) => record,
            Refusal::NewAffine(record) => record,
            Refusal::NewPosition(record) => record,
            Refusal::SpareBits => 0,
            Refusal::Steps => 0,
            Refusal::Edge => 0,
            Refusal::Drag => 0,
            Refusal::PresentNode(node) => node,
            Refusal::AddedMass(node) => node,
            Refusal::Name => 0,
            Refusal::NotHeld => 0,
            Refusal::FullStore => 0,
        }
    }
}
