// Numbers: out of the bytes of a record, into a checksum, and onto standard output.
ghost use Rattle.std.specs.Prelude.{◌≡◌};
ghost use Rattle.compare_cases.specs.Records.{bytes_from, mixed};

// The number that bytes say, the high byte first: of the last eight bytes, where there are more.
pub fn of_bytes(bytes: &[u8]) -> u64
    ensures value { result ≡ bytes_from 0 bytes.now }
{
    let mut n: u64 = 0;
    for &b in bytes {
        n = n % 72057594037927936 * 256 + b as u64;
    }
    n
}

// A checksum with one number more.
pub fn mix(h: u64, n: u64) -> u64
    ensures value { result ≡ mixed h n }
{
    (h % 4294967291 * 257 + n % 4294967291 + 1) % 4294967291
}

// The eight low digits of a number.
fn hex(n: u64) -> [u8; 8] {
    let mut out = [0; 8];
    let mut rest = n;
    for digit in out.iter_mut().rev() {
        *digit = b"0123456789abcdef"[(rest % 16) as usize];
        rest /= 16;
    }
    out
}

// Prints the low digits of a number, at most 8 of them.
pub fn print_first<R: Print>(rt: &R, n: u64, digits: usize) {
    let out = hex(n);
    if digits <= 8 {
        let start = 8 - digits;
        let _ = rt.write_all(&out[start..]);
    }
}

// The same after a space.
pub fn print<R: Print>(rt: &R, n: u64, digits: usize) {
    let _ = rt.write_all(b" ");
    print_first(rt, n, digits);
}
