ghost use Rattle.std.specs.Prelude.{◌≡◌, ◌≤◌, ℕ, length};
ghost use Rattle.planes.specs.Planes.{every, places, unused_at};

use crate::every::every_below;

// The number of each place, as a byte: the compiler compares the bytes of a table side by side, and a counter one by one.
#[rattlefmt::skip]
pub fn place_numbers() -> [u8; 64]
    ensures { result ≡ places (λ (i : ℕ). i) 0 64 }
{
    [
        0, 1, 2, 3, 4, 5, 6, 7, 8, 9, 10, 11, 12, 13, 14, 15,
        16, 17, 18, 19, 20, 21, 22, 23, 24, 25, 26, 27, 28, 29, 30, 31,
        32, 33, 34, 35, 36, 37, 38, 39, 40, 41, 42, 43, 44, 45, 46, 47,
        48, 49, 50, 51, 52, 53, 54, 55, 56, 57, 58, 59, 60, 61, 62, 63,
    ]
}

// Whether no place from k on is in use. Plane 0 of b has the status of each.
pub fn unused_from(b: &[u8], k: u8) -> bool
    requires { 64 ≤ length b.now }
    ensures { result ≡ every (unused_at b.now k) 64 }
{
    let numbers = place_numbers();
    every_below(64, |i| (numbers[i] < k) | (b[i] == 0))
}
