// What both ends are opened with.
//
// The limits stand beside the type. Tables are not known here: an end's own opening calls `Settings::open`.
// Read `Settings` first.
#![tactic(auto)]

ghost use Rattle.std.specs.Prelude.{◌≡◌};
ghost use Rattle.settings.specs.Settings.{in_range, open_of, said, sound};

// The two numbers that the ends agree on (rule 1.3).
//
// repeats: in how many packets a change is sent again after the first that has it. contexts: how many contexts there are.
#[derive(Clone, Copy)]
pub struct Settings {
    pub repeats: u8,
    pub contexts: u8,
}

impl Settings {
    pub const MAX_REPEATS: u32 = 14;

    pub const MIN_CONTEXTS: u32 = 1;

    pub const MAX_CONTEXTS: u32 = 64;

    // How many places a table has: as many as there can be contexts.
    pub const PLACES: usize = 64;

    // How many bytes a packet has at the most (rule 1.4).
    pub const LONGEST: usize = 1500;

    fn in_range(n: u32, k: u32) -> bool
        ensures { result ≡ in_range n k }
    {
        (n <= Settings::MAX_REPEATS) & (Settings::MIN_CONTEXTS <= k) & (k <= Settings::MAX_CONTEXTS)
    }

    // Any two numbers may be asked for: they are judged before they are cut to the fields' width.
    pub fn open(n: u32, k: u32) -> Option<Settings>
        ensures { said result ≡ open_of n k }
    {
        if Settings::in_range(n, k) {
            return Some(Settings {
                repeats: n as u8,
                contexts: k as u8,
            });
        }
        None
    }

    // Whether settings that were handed in are such as an opening gives.
    pub fn is_sound(self) -> bool
        ensures { result ≡ sound self }
    {
        Settings::in_range(self.repeats as u32, self.contexts as u32)
    }
}
