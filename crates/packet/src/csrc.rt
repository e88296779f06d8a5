ghost use Rattle.std.specs.Prelude.{◌≡◌};
ghost use Rattle.packet.specs.Csrc.{same_list, no_list};

// The list of contributing sources.
//
// Words past the count are 0, so that two lists are equal exactly where count and all fifteen words are.
#[derive(Clone, Copy)]
pub struct Csrc {
    pub count: u8,
    pub words: [u32; Csrc::PLACES],
}

impl Csrc {
    pub const PLACES: usize = 15;

    pub const MAX_COUNT: u8 = 15;
}

// The list with nothing in it.
pub fn no_list() -> Csrc
    ensures { result ≡ no_list }
{
    Csrc {
        count: 0,
        words: [0; Csrc::PLACES],
    }
}

// Whether two lists are equal, compared whole.
#[tactic(auto, unfolding(crate::specs::Csrc::same_list))]
pub fn same_list(a: Csrc, b: Csrc) -> bool
    ensures { result ≡ same_list a b }
{
    (a.count == b.count) & (a.words == b.words)
}
