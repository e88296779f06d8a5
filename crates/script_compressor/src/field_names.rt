use crtp::CompressorLayout as Layout;
use script_shared::field::Field;
use script_text::word::{Word, name_index};

// How many fields a script shows of a context, N and K among them.
pub const FIELDS: usize = 49;

// The field at a place in the order of showing. The fifteen CSRC words stand in planes that follow one another.
pub fn field(place: usize) -> Option<Field> {
    Some(match place {
        0 => Field::Setting(Layout::REPEATS),
        1 => Field::Setting(Layout::CONTEXTS),
        2 => Field::Byte(Layout::STATUS, 1),
        3 => Field::Word(Layout::SOURCE),
        4 => Field::Word(Layout::DESTINATION),
        5 => Field::Short(Layout::SPORT),
        6 => Field::Short(Layout::DPORT),
        7 => Field::Word(Layout::SSRC),
        8 => Field::Byte(Layout::TOS, 255),
        9 => Field::Byte(Layout::TTL, 255),
        10 => Field::Byte(Layout::FLAGS, 255),
        11 => Field::Byte(Layout::PADDING, 1),
        12 => Field::Byte(Layout::EXTENSION, 1),
        13 => Field::Byte(Layout::BLANK, 1),
        14 => Field::Short(Layout::ID),
        15 => Field::Short(Layout::SEQUENCE),
        16 => Field::Word(Layout::TIMESTAMP),
        17 => Field::Byte(Layout::PAYLOAD, 255),
        18 => Field::Byte(Layout::COUNT, 255),
        34 => Field::Short(Layout::DELTA_ID),
        35 => Field::Word(Layout::DELTA_TIMESTAMP),
        36 => Field::Byte(Layout::EARLIER_KNOWN, 1),
        37 => Field::Short(Layout::EARLIER_ID),
        38 => Field::Word(Layout::EARLIER_TIMESTAMP),
        39 => Field::Byte(Layout::DUE_ID, 255),
        40 => Field::Byte(Layout::DUE_SEQUENCE, 255),
        41 => Field::Byte(Layout::DUE_TIMESTAMP, 255),
        42 => Field::Byte(Layout::DUE_PAYLOAD, 255),
        43 => Field::Byte(Layout::DUE_LIST, 255),
        44 => Field::Byte(Layout::DUE_DID, 255),
        45 => Field::Byte(Layout::DUE_DTS, 255),
        46 => Field::Byte(Layout::DUE_FULL, 255),
        47 => Field::Byte(Layout::LINK_SEQUENCE, 255),
        48 => Field::Byte(Layout::LINK_GENERATION, 255),
        19..=33 => Field::Word(Layout::CSRC + 64 * (place - 19)),
        _ => return None,
    })
}

// The field that a word of a line names.
pub fn named_field(line: &[u8], w: Word) -> Option<Field> {
    field(name_index(
        b"n k status source destination sport dport ssrc tos ttl flags padding extension blank id sequence timestamp payload cc \
          csrc0 csrc1 csrc2 csrc3 csrc4 csrc5 csrc6 csrc7 csrc8 csrc9 csrc10 csrc11 csrc12 csrc13 csrc14 \
          did dts earlier eid ets idue sdue tdue pdue cdue didue dtdue fdue link generation",
        line,
        w,
    )?)
}
