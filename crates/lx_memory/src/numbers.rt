//! Numbers in bytes, the least byte first.
ghost use Rattle.std.specs.Prelude.{◌≡◌, ◌≤◌, length};
ghost use Rattle.lx_caps.specs.Memory.{bytes_of, number_of};

/// The number that stands in these bytes, of which there are at most 8.
pub fn number(bytes: &[u8]) -> u64
    requires { length bytes.now ≤ 8 }
    ensures { result ≡ number_of bytes.now }
{
    let mut number = 0;
    let mut left = bytes.len();
    while left > 0 {
        left -= 1;
        number = number * 256 + u64::from(bytes[left]);
    }
    number
}

/// Puts the lowest bytes of a number into the bytes, as many as there are.
pub fn put_number(bytes: &mut [u8], number: u64)
    ensures { bytes.new ≡ bytes_of (length bytes.old) number }
{
    let mut rest = number;
    for byte in bytes.iter_mut() {
        *byte = (rest % 256) as u8;
        rest /= 256;
    }
}
