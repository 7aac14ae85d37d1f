// Rows of small numbers as hexadecimal digits of one number.
ghost use Rattle.std.specs.Prelude.{◌≡◌, ◌*◌, ◌/◌, ◌%◌, ◌^◌, ◌<◌};

// Digit k of a row, the rightmost first.
pub fn digit(row: u64, k: u64) -> u64
    requires { k < 16 }
    ensures { result ≡ row / 2 ^ (4 * k) % 16 }
{
    (row >> (4 * k)) % 16
}
