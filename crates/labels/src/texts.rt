// Texts compared in place.
ghost use Rattle.std.specs.Prelude.{◌≡◌, ◌+◌, ◌≤◌, length, take, drop};
ghost use Rattle.model.specs.Bytes.{same};

// Are the n bytes from `at` on this text?
pub fn same_at(image: &[u8], at: usize, n: usize, text: &[u8]) -> bool
    requires { at + n ≤ length image.now }
    ensures { result ≡ same (take n (drop at image.now)) text.now }
{
    &image[at..at + n] == text
}
