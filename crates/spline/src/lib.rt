// The quadratic B-spline along one axis, in whole numbers: node spacing 64, weights that total 8192.
#![tactic(auto)]

ghost use Rattle.std.specs.Prelude.{◌≡◌, ◌≤◌, T};
ghost use Rattle.spline.specs.Answers.{told_weights, weights_answer, table, mirror};
ghost use Rattle.spline.specs.Kernel.{weights_at};
ghost use Rattle.spline.specs.Test.{passes};

use refusal::Refusal;

// The weights of the lower, the nearest and the upper node.
#[derive(Clone, Copy)]
pub struct AxisWeights {
    pub lower: u16,
    pub nearest: u16,
    pub upper: u16,
}

// The weights' second moment for a total of 1, in squared position units: the D of the transfers.
pub const D: u64 = 1024;

// The rows of offsets 0 to 31, and that of 32, which is no offset: a row's mirror is that of the other sign, and so it gives −32.
const WEIGHTS: [[u16; 3]; 33] = [
    [1024, 6144, 1024],
    [961, 6142, 1089],
    [900, 6136, 1156],
    [841, 6126, 1225],
    [784, 6112, 1296],
    [729, 6094, 1369],
    [676, 6072, 1444],
    [625, 6046, 1521],
    [576, 6016, 1600],
    [529, 5982, 1681],
    [484, 5944, 1764],
    [441, 5902, 1849],
    [400, 5856, 1936],
    [361, 5806, 2025],
    [324, 5752, 2116],
    [289, 5694, 2209],
    [256, 5632, 2304],
    [225, 5566, 2401],
    [196, 5496, 2500],
    [169, 5422, 2601],
    [144, 5344, 2704],
    [121, 5262, 2809],
    [100, 5176, 2916],
    [81, 5086, 3025],
    [64, 4992, 3136],
    [49, 4894, 3249],
    [36, 4792, 3364],
    [25, 4686, 3481],
    [16, 4576, 3600],
    [9, 4462, 3721],
    [4, 4344, 3844],
    [1, 4222, 3969],
    [0, 4096, 4096],
];

// The numbers as they stand above, which pass the test. `weight_table` calls it.
fn tested_rows() -> [[u16; 3]; 33]
    ensures { T (passes result) }
{
    WEIGHTS
}

// The row of the other sign. `weight_table` calls it.
fn mirrored(row: [u16; 3]) -> [u16; 3]
    ensures { result ≡ mirror row }
{
    [row[2], row[1], row[0]]
}

// The table, for a caller that looks many weights up and lends it to `weights_at`. Row k is for offset k − 32: each turn makes
// a row below 0, mirrored, and one from 0 on.
pub fn weight_table() -> [[u16; 3]; 64]
    ensures { result ≡ table }
{
    let rows = tested_rows();
    let mut table = [[0u16; 3]; 64];
    for k in 0..32 {
        table[k] = mirrored(rows[32 - k]);
        table[63 - k] = rows[31 - k];
    }
    table
}

// The weights of the three nodes around a particle at x, in the table that the caller lends: the row of its offset. The
// transfers call it.
pub fn weights_at(table: &[[u16; 3]; 64], x: usize) -> AxisWeights
    requires { x ≤ 4095 }
    ensures { result ≡ weights_at table.now x }
{
    let k = (x + 32) % 64;
    AxisWeights {
        lower: table[k][0],
        nearest: table[k][1],
        upper: table[k][2],
    }
}

// The weights of the three nodes around a particle at offset q from its nearest node, by their formulas. It does not look
// the constant up: an index into one builds it whole.
pub fn weights(q: i64) -> Result<AxisWeights, Refusal>
    ensures { told_weights result ≡ weights_answer q }
{
    if q < -32 {
        return Err(Refusal::Position(0));
    }
    if q > 31 {
        return Err(Refusal::Position(0));
    }
    Ok(AxisWeights {
        lower: ((32 - q) * (32 - q)) as u16,
        nearest: (6144 - 2 * q * q) as u16,
        upper: ((32 + q) * (32 + q)) as u16,
    })
}
