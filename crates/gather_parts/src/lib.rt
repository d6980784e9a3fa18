// Grid-to-particle transfer of a set of records, part by part.
#![tactic(auto)]

ghost use Rattle.spline.specs.Kernel.{weight_in};
ghost use Rattle.transfer.specs.Internal.{PartsMovable, MovedFrom};

use particle::RECORD_LENGTH;
use refusal::Refusal;
use transfer::PART;
use unpacked::NUMBERS;

// Moves a set into an array of as many numbers, part by part, by way of one with room for the numbers of a part. Crate gather
// calls it.
pub fn gather_parts(
    nx: usize,
    ny: usize,
    records: &[u8],
    from: &mut [i16],
    to: &mut [i16],
    table: &[[u16; 3]; 64],
    ux: &[i64],
    uy: &[i64],
) -> Result<(), Refusal>
    requires { PartsMovable nx ny records.now from.old to.old ux.now uy.now }
    ensures { MovedFrom (weight_in table.now) 0 nx ny records.now ux.now uy.now to.new result }
{
    let count = records.len() / RECORD_LENGTH;
    for part in 0..count.div_ceil(PART) {
        let first = PART * part;
        let end = count.min(first + PART);
        transfer_part::gather_part(
            nx,
            ny,
            first,
            &records[RECORD_LENGTH * first..RECORD_LENGTH * end],
            &mut from[..NUMBERS * (end - first)],
            &mut to[NUMBERS * first..NUMBERS * end],
            table,
            ux,
            uy,
        )?;
    }
    Ok(())
}
