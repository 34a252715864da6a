// One conversion for each quantity that a register's byte holds.
#![tactic(auto)]

ghost use Rattle.std.specs.Prelude.{◌≡◌, ◌≤◌, if◌then◌else◌};
ghost use Rattle.quantity.specs.Quantities.{bit, low_level, high_level, signed, byte_of};

// Bit k of a byte, which has bits 0 to 7.
pub fn is_bit(byte: u8, k: u8) -> bool
    ensures { result ≡ bit byte k }
{
    k < 8 && (byte >> k) % 2 == 1
}

// The byte while on, else 0.
pub fn byte_if(on: bool, byte: u8) -> u8
    ensures is { result ≡ (if on then byte else 0) }
    ensures small { result ≤ byte }
{
    if on { byte } else { 0 }
}

// The level that the low nibble stands for.
pub fn low_level(byte: u8) -> u8
    ensures { result ≡ low_level byte }
{
    17 * (byte % 16)
}

// The level that the high nibble stands for.
pub fn high_level(byte: u8) -> u8
    ensures { result ≡ high_level byte }
{
    17 * (byte / 16)
}

// The degrees that a byte stands for, in two's complement.
pub fn signed(byte: u8) -> i8
    ensures { result ≡ signed byte }
{
    byte.cast_signed()
}

// The byte that stands for these degrees.
pub fn byte_of(degrees: i8) -> u8
    ensures { result ≡ byte_of degrees }
{
    degrees.cast_unsigned()
}
