// A number of 64 bits as one of 16: itself where it fits, and else the nearest that does.
ghost use Rattle.std.specs.Prelude.{◌≡◌};
ghost use Rattle.wide.specs.Internal.{capped, clamped};

const MOST_UNSIGNED: u64 = 65535;

const LEAST_SIGNED: i64 = -32768;

const MOST_SIGNED: i64 = 32767;

pub fn unsigned(n: u64) -> u16
    ensures { result ≡ capped 65535 n }
{
    n.min(MOST_UNSIGNED) as u16
}

pub fn signed(z: i64) -> i16
    ensures { result ≡ clamped z }
{
    z.clamp(LEAST_SIGNED, MOST_SIGNED) as i16
}
