use crtp::Refusal;

// The number by which a script shows a refusal.
pub fn refusal_number(r: Refusal) -> u64 {
    match r {
        Refusal::Unsound => 1,
        Refusal::BadLength => 2,
        Refusal::UnknownType => 3,
        Refusal::Cut => 4,
        Refusal::Forbidden => 5,
        Refusal::NoSuchContext => 6,
        Refusal::UnusedCode => 7,
        Refusal::NotLive => 8,
        Refusal::OutOfStep => 9,
        Refusal::TooLong => 10,
        Refusal::NoRoom => 11,
        Refusal::Disproved => 12,
    }
}
