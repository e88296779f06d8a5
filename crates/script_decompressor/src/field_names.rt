use crtp::DecompressorLayout as Layout;
use script_shared::field::Field;
use script_text::word::{Word, name_index};

// How many fields a script shows of a context, N and K among them.
pub const FIELDS: usize = 40;

// The field at a place in the order of showing. The fifteen CSRC words stand in planes that follow one another.
pub fn field(place: usize) -> Option<Field> {
    Some(match place {
        0 => Field::Setting(Layout::REPEATS),
        1 => Field::Setting(Layout::CONTEXTS),
        2 => Field::Byte(Layout::STATUS, 2),
        3 => Field::Byte(Layout::FILLED, 1),
        4 => Field::Word(Layout::SOURCE),
        5 => Field::Word(Layout::DESTINATION),
        6 => Field::Short(Layout::SPORT),
        7 => Field::Short(Layout::DPORT),
        8 => Field::Word(Layout::SSRC),
        9 => Field::Byte(Layout::TOS, 255),
        10 => Field::Byte(Layout::TTL, 255),
        11 => Field::Byte(Layout::FLAGS, 255),
        12 => Field::Byte(Layout::PADDING, 1),
        13 => Field::Byte(Layout::EXTENSION, 1),
        14 => Field::Byte(Layout::CARRIED, 1),
        15 => Field::Byte(Layout::MARKER, 1),
        16 => Field::Short(Layout::ID),
        17 => Field::Short(Layout::SEQUENCE),
        18 => Field::Word(Layout::TIMESTAMP),
        19 => Field::Byte(Layout::PAYLOAD, 255),
        20 => Field::Byte(Layout::COUNT, 255),
        36 => Field::Short(Layout::DELTA_ID),
        37 => Field::Word(Layout::DELTA_TIMESTAMP),
        38 => Field::Byte(Layout::LINK_SEQUENCE, 255),
        39 => Field::Byte(Layout::LINK_GENERATION, 255),
        21..=35 => Field::Word(Layout::CSRC + 64 * (place - 21)),
        _ => return None,
    })
}

// The field that a word of a line names.
pub fn named_field(line: &[u8], w: Word) -> Option<Field> {
    field(name_index(
        b"n k status filled source destination sport dport ssrc tos ttl flags padding extension carried marker \
          id sequence timestamp payload cc \
          csrc0 csrc1 csrc2 csrc3 csrc4 csrc5 csrc6 csrc7 csrc8 csrc9 csrc10 csrc11 csrc12 csrc13 csrc14 \
          did dts link generation",
        line,
        w,
    )?)
}
