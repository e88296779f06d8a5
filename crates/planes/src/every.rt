ghost use Rattle.std.specs.Prelude.{◌≡◌, ◌<◌, ℕ, Bool};
ghost use Rattle.planes.specs.Planes.{every};

// Whether every number below n passes a test. There is no way out before the last one: a walk over planes stays straight.
pub fn every_below<F: Fn(usize) -> bool>(n: usize, test: F) -> bool
    requires { (i : ℕ) → i < n → F.pre test i }
    ensures { (h : ℕ → Bool) → ((i : ℕ) (r : Bool) → i < n → F.post test i r → r ≡ h i) → result ≡ every h n }
{
    let mut ok = true;
    for i in 0..n {
        ok = ok & test(i);
    }
    ok
}
