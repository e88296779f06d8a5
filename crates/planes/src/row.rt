ghost use Rattle.std.specs.Prelude.{◌≡◌, ◌<◌, ◌≤◌, ◌+◌, ◌*◌, length, get_or};
ghost use Rattle.planes.specs.Planes.{row_or, replaced};

use std::array::from_fn;

// The row of place i: N numbers, from plane f on.
pub fn row_at<T: Copy, const N: usize>(planes: &[T], i: usize, f: usize) -> [T; N]
    requires { (i < 64) × (64 * (f + N) ≤ length planes.now) }
    ensures { (d : T) → result ≡ row_or planes.now d i f N }
{
    from_fn(
        |p: usize| -> T
            requires { 64 * (f + p) + i < length planes.now }
            ensures { (d : T) → result ≡ get_or planes.entry.now (64 * (f + p) + i) d }
        { planes[64 * (f + p) + i] },
    )
}

// Another row at place i, from plane f on.
pub fn put_row<T: Copy>(planes: &mut [T], i: usize, f: usize, row: &[T])
    requires { (i < 64) × (64 * (f + length row.now) ≤ length planes.old) }
    ensures { planes.new ≡ replaced planes.old i f row.now }
{
    for (p, v) in row.iter().enumerate() {
        planes[64 * (f + p) + i] = *v;
    }
}
