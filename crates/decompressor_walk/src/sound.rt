ghost use Rattle.std.specs.Prelude.{◌≡◌, ◌&&◌, ◌<◌, ◌≤◌, length};
ghost use Rattle.planes.specs.Planes.{lent, row, every};
ghost use Rattle.decompressor.specs.Table.{sound_of};
ghost use Rattle.decompressor_table.specs.Layout.{table_of};
ghost use Rattle.decompressor_walk.specs.Walk.{byte_test, short_test, word_test};
ghost use Rattle.decompressor_walk.specs.Walk.{filled_at, coded_at};

use codes::code::has_code32;
use decompressor_table::layout::Layout;
use planes::every::every_below;
use planes::lists;
use planes::numbers::unused_from;
use settings::Settings;

// An empty context was never filled, a live one was; one that was never filled holds nothing but its status.
fn bytes_sound(b: &[u8]) -> bool
    requires { length b.now ≡ 834 }
    ensures { result ≡ every (λ i. byte_test (row b.now i 0 13)) 64 }
{
    every_below(
        Settings::PLACES,
        // The check gathers no requires out of so many tests: here it is written.
        |i|
            requires { (i < 64) × (length b.now ≡ 834) }
        {
            (b[Layout::STATUS + i] <= 2)
                & (b[Layout::FILLED + i] <= 1)
                & (!(b[Layout::STATUS + i] == 0) | (b[Layout::FILLED + i] == 0))
                & (!(b[Layout::STATUS + i] == 1) | (b[Layout::FILLED + i] == 1))
                & (b[Layout::PADDING + i] <= 1)
                & (b[Layout::EXTENSION + i] <= 1)
                & (b[Layout::CARRIED + i] <= 1)
                & (b[Layout::MARKER + i] <= 1)
                & (b[Layout::FLAGS + i] <= 3)
                & (b[Layout::PAYLOAD + i] <= 127)
                & (b[Layout::COUNT + i] <= 15)
                & (b[Layout::LINK_SEQUENCE + i] <= 15)
                & (b[Layout::LINK_GENERATION + i] <= 63)
                & (!(b[Layout::FILLED + i] == 0)
                    | ((b[Layout::TOS + i] == 0)
                        & (b[Layout::TTL + i] == 0)
                        & (b[Layout::FLAGS + i] == 0)
                        & (b[Layout::PADDING + i] == 0)
                        & (b[Layout::EXTENSION + i] == 0)
                        & (b[Layout::CARRIED + i] == 0)
                        & (b[Layout::MARKER + i] == 0)
                        & (b[Layout::PAYLOAD + i] == 0)
                        & (b[Layout::COUNT + i] == 0)
                        & (b[Layout::LINK_SEQUENCE + i] == 0)
                        & (b[Layout::LINK_GENERATION + i] == 0)))
        },
    )
}

fn shorts_sound(h: &[u16], b: &[u8]) -> bool
    requires { (length h.now ≡ 320) × (length b.now ≡ 834) }
    ensures { result ≡ every (λ i. short_test (row h.now i 0 5) (row b.now i 0 13)) 64 }
{
    every_below(
        Settings::PLACES,
        |i| !(b[Layout::FILLED + i] == 0)
            | ((h[Layout::SPORT + i] == 0)
                & (h[Layout::DPORT + i] == 0)
                & (h[Layout::ID + i] == 0)
                & (h[Layout::SEQUENCE + i] == 0)
                & (h[Layout::DELTA_ID + i] == 0)),
    )
}

fn words_sound(w: &[u32], b: &[u8]) -> bool
    requires { (length w.now ≡ 1280) × (length b.now ≡ 834) }
    ensures { result ≡ every (λ i. word_test (row w.now i 0 20) (row b.now i 0 13)) 64 }
{
    every_below(Settings::PLACES, |i| {
        let coded = has_code32(w[Layout::DELTA_TIMESTAMP + i]);
        (!(b[Layout::FILLED + i] == 0)
            | ((w[Layout::SOURCE + i] == 0)
                & (w[Layout::DESTINATION + i] == 0)
                & (w[Layout::SSRC + i] == 0)
                & (w[Layout::TIMESTAMP + i] == 0)
                & (w[Layout::DELTA_TIMESTAMP + i] == 0)))
            & coded
    })
}

// Whether every place was filled.
fn all_filled(b: &[u8]) -> bool
    requires { length b.now ≡ 834 }
    ensures { result ≡ every (filled_at b.now) 64 }
{
    every_below(Settings::PLACES, |i| !(b[Layout::FILLED + i] == 0))
}

fn deltas_coded(w: &[u32]) -> bool
    requires { length w.now ≡ 1280 }
    ensures { result ≡ every (coded_at w.now) 64 }
{
    every_below(
        Settings::PLACES,
        |i| has_code32(w[Layout::DELTA_TIMESTAMP + i]),
    )
}

// Numbers of 16 and of 32 bits. Where every place was filled none of them has to be 0: one plane is walked in place of ten.
fn wide_sound(w: &[u32], h: &[u16], b: &[u8]) -> bool
    requires { (length w.now ≡ 1280) × (length h.now ≡ 320) × (length b.now ≡ 834) }
    ensures { result ≡ (every (λ i. short_test (row h.now i 0 5) (row b.now i 0 13)) 64
        && every (λ i. word_test (row w.now i 0 20) (row b.now i 0 13)) 64) }
{
    if all_filled(b) {
        return deltas_coded(w);
    }
    let shorts = shorts_sound(h, b);
    let words = words_sound(w, b);
    shorts & words
}

// Whether three slices hold a table that the calls can leave.
pub fn sound(w: &[u32], h: &[u16], b: &[u8]) -> bool
    ensures { result ≡ sound_of (table_of (lent w.now h.now b.now)) }
{
    let sized = (w.len() == Layout::WORDS)
        & (h.len() == Layout::SHORTS)
        & (b.len() == Layout::BYTES);
    if !sized {
        return false;
    }
    let settings = Settings {
        repeats: b[Layout::REPEATS],
        contexts: b[Layout::CONTEXTS],
    };
    if !settings.is_sound() {
        return false;
    }
    let bytes = bytes_sound(b);
    let wide = wide_sound(w, h, b);
    let lists = lists::are_ended(
        w,
        Layout::CSRC / Settings::PLACES,
        b,
        Layout::COUNT / Settings::PLACES,
    );
    let unused = unused_from(b, settings.contexts);
    bytes & wide & lists & unused
}
