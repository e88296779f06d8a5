ghost use Rattle.std.specs.Prelude.{◌≡◌, ◌&&◌, ◌<◌, ◌≤◌, length};
ghost use Rattle.planes.specs.Planes.{lent, row, every};
ghost use Rattle.compressor.specs.Table.{sound_of};
ghost use Rattle.compressor_table.specs.Layout.{table_of};
ghost use Rattle.compressor_walk.specs.Walk.{head_test, due_test, short_test, word_test};
ghost use Rattle.compressor_walk.specs.Walk.{used_at, even_at, coded_at};

use codes::code::has_code32;
use compressor_table::layout::Layout;
use planes::every::every_below;
use planes::lists;
use planes::numbers::unused_from;
use settings::Settings;

// What came from a header, at each place.
fn heads_sound(b: &[u8]) -> bool
    requires { length b.now ≡ 1282 }
    ensures { result ≡ every (λ i. head_test (row b.now i 0 20)) 64 }
{
    every_below(
        Settings::PLACES,
        |i| (b[Layout::STATUS + i] <= 1)
            & (b[Layout::FLAGS + i] <= 3)
            & (b[Layout::PADDING + i] <= 1)
            & (b[Layout::EXTENSION + i] <= 1)
            & (b[Layout::BLANK + i] <= 1)
            & (b[Layout::PAYLOAD + i] <= 127)
            & (b[Layout::COUNT + i] <= 15)
            & (b[Layout::EARLIER_KNOWN + i] <= 1)
            & (!(b[Layout::STATUS + i] == 0)
                | ((b[Layout::TOS + i] == 0)
                    & (b[Layout::TTL + i] == 0)
                    & (b[Layout::FLAGS + i] == 0)
                    & (b[Layout::PADDING + i] == 0)
                    & (b[Layout::EXTENSION + i] == 0)
                    & (b[Layout::BLANK + i] == 0)
                    & (b[Layout::PAYLOAD + i] == 0)
                    & (b[Layout::COUNT + i] == 0)
                    & (b[Layout::EARLIER_KNOWN + i] == 0))),
    )
}

// What is due, and where the context stands on the link, at each place.
fn dues_sound(n: u8, b: &[u8]) -> bool
    requires { (n ≤ 14) × (length b.now ≡ 1282) }
    ensures { result ≡ every (λ i. due_test n (row b.now i 0 20)) 64 }
{
    let full = n + 1;
    every_below(
        Settings::PLACES,
        // The check gathers no requires out of so many tests: here it is written.
        |i|
            requires { (i < 64) × (length b.now ≡ 1282) }
        {
            (b[Layout::DUE_FULL + i] <= full)
                & (b[Layout::DUE_ID + i] <= n)
                & (b[Layout::DUE_SEQUENCE + i] <= n)
                & (b[Layout::DUE_TIMESTAMP + i] <= n)
                & (b[Layout::DUE_PAYLOAD + i] <= n)
                & (b[Layout::DUE_LIST + i] <= n)
                & (b[Layout::DUE_DID + i] <= n)
                & (b[Layout::DUE_DTS + i] <= n)
                & (b[Layout::LINK_SEQUENCE + i] <= 15)
                & (b[Layout::LINK_GENERATION + i] <= 63)
                & (!(b[Layout::STATUS + i] == 0)
                    | ((b[Layout::DUE_FULL + i] == 0)
                        & (b[Layout::DUE_ID + i] == 0)
                        & (b[Layout::DUE_SEQUENCE + i] == 0)
                        & (b[Layout::DUE_TIMESTAMP + i] == 0)
                        & (b[Layout::DUE_PAYLOAD + i] == 0)
                        & (b[Layout::DUE_LIST + i] == 0)
                        & (b[Layout::DUE_DID + i] == 0)
                        & (b[Layout::DUE_DTS + i] == 0)
                        & (b[Layout::LINK_SEQUENCE + i] == 0)
                        & (b[Layout::LINK_GENERATION + i] == 0)))
        },
    )
}

fn shorts_sound(h: &[u16], b: &[u8]) -> bool
    requires { (length h.now ≡ 384) × (length b.now ≡ 1282) }
    ensures { result ≡ every (λ i. short_test (row h.now i 0 6) (row b.now i 0 20)) 64 }
{
    every_below(
        Settings::PLACES,
        |i| (!(b[Layout::STATUS + i] == 0)
            | ((h[Layout::SPORT + i] == 0)
                & (h[Layout::DPORT + i] == 0)
                & (h[Layout::ID + i] == 0)
                & (h[Layout::SEQUENCE + i] == 0)
                & (h[Layout::DELTA_ID + i] == 0)
                & (h[Layout::EARLIER_ID + i] == 0)))
            & (h[Layout::DPORT + i] % 2 == 0),
    )
}

fn words_sound(w: &[u32], b: &[u8]) -> bool
    requires { (length w.now ≡ 1344) × (length b.now ≡ 1282) }
    ensures { result ≡ every (λ i. word_test (row w.now i 0 21) (row b.now i 0 20)) 64 }
{
    every_below(Settings::PLACES, |i| {
        let coded = has_code32(w[Layout::DELTA_TIMESTAMP + i]);
        (!(b[Layout::STATUS + i] == 0)
            | ((w[Layout::SOURCE + i] == 0)
                & (w[Layout::DESTINATION + i] == 0)
                & (w[Layout::SSRC + i] == 0)
                & (w[Layout::TIMESTAMP + i] == 0)
                & (w[Layout::DELTA_TIMESTAMP + i] == 0)
                & (w[Layout::EARLIER_TIMESTAMP + i] == 0)))
            & coded
    })
}

// Whether every place is in use.
fn all_used(b: &[u8]) -> bool
    requires { length b.now ≡ 1282 }
    ensures { result ≡ every (used_at b.now) 64 }
{
    every_below(Settings::PLACES, |i| !(b[Layout::STATUS + i] == 0))
}

fn ports_even(h: &[u16]) -> bool
    requires { length h.now ≡ 384 }
    ensures { result ≡ every (even_at h.now) 64 }
{
    every_below(Settings::PLACES, |i| h[Layout::DPORT + i] % 2 == 0)
}

fn deltas_coded(w: &[u32]) -> bool
    requires { length w.now ≡ 1344 }
    ensures { result ≡ every (coded_at w.now) 64 }
{
    every_below(
        Settings::PLACES,
        |i| has_code32(w[Layout::DELTA_TIMESTAMP + i]),
    )
}

// Numbers of 16 and of 32 bits. Where every place is in use none of them has to be 0: two planes are walked in place of twelve.
fn wide_sound(w: &[u32], h: &[u16], b: &[u8]) -> bool
    requires { (length w.now ≡ 1344) × (length h.now ≡ 384) × (length b.now ≡ 1282) }
    ensures { result ≡ (every (λ i. short_test (row h.now i 0 6) (row b.now i 0 20)) 64
        && every (λ i. word_test (row w.now i 0 21) (row b.now i 0 20)) 64) }
{
    if all_used(b) {
        let even = ports_even(h);
        let coded = deltas_coded(w);
        return even & coded;
    }
    let shorts = shorts_sound(h, b);
    let words = words_sound(w, b);
    shorts & words
}

// Whether three slices hold a table that the calls can leave.
pub fn sound(w: &[u32], h: &[u16], b: &[u8]) -> bool
    ensures { result ≡ sound_of (table_of (lent w.now h.now b.now)) }
{
    let sized = (w.len() == Layout::WORDS)
        & (h.len() == Layout::SHORTS)
        & (b.len() == Layout::BYTES);
    if !sized {
        return false;
    }
    let settings = Settings {
        repeats: b[Layout::REPEATS],
        contexts: b[Layout::CONTEXTS],
    };
    if !settings.is_sound() {
        return false;
    }
    let heads = heads_sound(b);
    let dues = dues_sound(settings.repeats, b);
    let wide = wide_sound(w, h, b);
    let lists = lists::are_ended(
        w,
        Layout::CSRC / Settings::PLACES,
        b,
        Layout::COUNT / Settings::PLACES,
    );
    let unused = unused_from(b, settings.contexts);
    heads & dues & wide & lists & unused
}
