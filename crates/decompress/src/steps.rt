ghost use Rattle.std.specs.Prelude.{◌≡◌, ◌≤◌};
ghost use Rattle.context.specs.Field.{steps, moved_on};

use codes::field::DeltaField;

fn step_on<T: DeltaField>(a: T, d: T, g: u8) -> T
    ensures { result ≡ steps T.sum a d g }
{
    let mut x = a;
    for _ in 0..g {
        x = x.sum(d);
    }
    x
}

// A field after a gap of g; d: its difference, whole: its value, where they were sent.
#[tactic(auto, unfolding(context::specs::Field::moved_on))]
pub fn move_on<T: DeltaField>(g: u8, last: T, delta: T, d: Option<T>, whole: Option<T>) -> T
    requires { 1 ≤ g }
    ensures { result ≡ moved_on T.sum g last delta d whole }
{
    let most = step_on(last, delta, g - 1);
    whole.unwrap_or(most.sum(d.unwrap_or(delta)))
}
