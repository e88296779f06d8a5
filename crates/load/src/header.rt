ghost use Rattle.std.specs.Prelude.{◌≡◌, length};
ghost use Rattle.saves.specs.Saves.{kept_form, no_header, header_field, header_from};

use codes::cursor::Cursor;
use fields::place::{Place, stop};
use headers_read::form::fixed_form;
use headers_read::place::{count_at, word_at};
use headers_read::read::{read_header, size_with};
use packet::csrc::no_list;
use packet::header::{Flow, Header, Ip, Rtp};
use packet::refusal::Refusal;
use saves::read::GotHeader;

// Whether a part has the form of a header that a save writes.
fn kept_form(size: usize, p: &[u8]) -> bool
    requires { length p.now ≡ size }
    ensures { result ≡ kept_form size p.now }
{
    if size < 40 {
        return false;
    }
    let checksum = word_at(p, 26);
    let count = count_at(p, 28);
    fixed_form(p)
        & (word_at(p, 2) == 0)
        & (word_at(p, 10) == 0)
        & (word_at(p, 24) == 0)
        & ((checksum == 0) | (checksum == 0xFFFF))
        & (size_with(count) == size)
}

// What is got where there is no header; p: where the reading stands then.
fn no_header(p: Place) -> GotHeader
    ensures { result ≡ record { place = p; header = no_header } }
{
    GotHeader {
        place: p,
        header: Header {
            flow: Flow {
                source: 0,
                destination: 0,
                sport: 0,
                dport: 0,
                ssrc: 0,
            },
            ip: Ip {
                tos: 0,
                ttl: 0,
                flags: 0,
                id: 0,
            },
            rtp: Rtp {
                padding: false,
                extension: false,
                payload: 0,
                sequence: 0,
                timestamp: 0,
            },
            csrc: no_list(),
            marker: false,
            checksum: 0,
        },
    }
}

// A header of so many bytes, which is one field: cut where it is not all there, whatever the bytes that are.
fn read_field(s: &[u8], cursor: Cursor, size: usize) -> GotHeader
    ensures { result ≡ header_field s.now cursor.at size }
{
    if !cursor.has(s, size) {
        return no_header(stop(cursor, Refusal::Cut));
    }
    let at = cursor.at;
    let past = at + size;
    let part = &s[at..past];
    if !kept_form(size, part) {
        return no_header(stop(cursor, Refusal::Forbidden));
    }
    GotHeader {
        place: Place {
            verdict: Ok(()),
            cursor: Cursor { at: past },
        },
        header: read_header(part),
    }
}

// The header of a record; a size of 0 has none.
#[tactic(auto, unfolding(saves::specs::Saves::header_from))]
pub fn read_kept(s: &[u8], p: Place, size: u8) -> GotHeader
    ensures { result ≡ header_from s.now p size }
{
    if p.verdict.is_ok() & (size != 0) {
        return read_field(s, p.cursor, size as usize);
    }
    no_header(p)
}
