// How often a program reads: proved code has to end, and nothing says that an input does.
ghost use Rattle.std.specs.Prelude.{◌≡◌, true, false, ◌+◌, ◌<◌, ◌^◌};

// How many reads are made at most, 2^51: of 4,096 bytes each they bring at most 2^63, so that a count of lines stays below 2^64; no run uses them up.
pub const MOST: u64 = 0x0008_0000_0000_0000;

// So many reads. Nothing is run here: the promise fixes the number.
pub fn most()
    ensures { MOST ≡ 2 ^ 51 }
{}

// How many reads may still be made: none where there was nothing to read.
pub fn left(turns: u64, going: bool) -> u64
    requires { 0 < turns }
    ensures going { going ≡ true → result + 1 ≡ turns }
    ensures ended { going ≡ false → result ≡ 0 }
{
    if going { turns - 1 } else { 0 }
}
