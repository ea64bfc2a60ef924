// Sixteen digits, eight in a word and a byte a digit, the first one in the low byte.
ghost use Rattle.std.specs.Prelude.{◌≡◌};
ghost use Rattle.std.specs.Int.{to_le_bytes, w64};
ghost use Rattle.page.specs.Digits.{eight, sixteen};

// The digits of a number's low four bytes, made at once. A value plus 6 has bit 4 if its digit is a letter, and letters lie 39 higher.
fn pack(n: usize) -> u64
    ensures value { to_le_bytes w64 result ≡ eight n }
{
    let eighth = (n % 16) as u64;
    let seventh = (n / 16 % 16) as u64 + 256 * eighth;
    let sixth = (n / 256 % 16) as u64 + 256 * seventh;
    let fifth = (n / 256 / 16 % 16) as u64 + 256 * sixth;
    let fourth = (n / 0x1_0000 % 16) as u64 + 256 * fifth;
    let third = (n / 0x1_0000 / 16 % 16) as u64 + 256 * fourth;
    let second = (n / 0x100_0000 % 16) as u64 + 256 * third;
    let nibbles = (n / 0x100_0000 / 16 % 16) as u64 + 256 * second;
    let letters = ((nibbles + 0x0606_0606_0606_0606) & 0x1010_1010_1010_1010) / 16;
    nibbles + 0x3030_3030_3030_3030 + 39 * letters
}

// The digits of a number, the high byte first.
pub fn digits(n: u64) -> [u8; 16]
    ensures value { result ≡ sixteen n }
{
    let high = pack((n >> 32) as usize);
    let low = pack(n as usize);
    (high as u128 + ((low as u128) << 64)).to_le_bytes()
}
