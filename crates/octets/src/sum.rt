ghost use Rattle.std.specs.Prelude.{◌≡◌, ◌≤◌, ◌+◌, length};
ghost use Rattle.octets.specs.Sum.{sum_of, words_of, total, fold_once};

use codes::cursor::be16;

// The words of a block added to a start value, with all their carries: 32 bits hold 800 words.
fn add_words(start: u16, block: &[u8]) -> u32
    requires { length block.now ≤ 1600 }
    ensures { result ≡ start + total (words_of block.now) }
{
    let mut acc = start as u32;
    let (pairs, rest) = block.as_chunks::<2>();
    for pair in pairs {
        acc += be16(pair[0], pair[1]) as u32;
    }
    match rest.first() {
        Some(last) => acc + be16(*last, 0) as u32,
        None => acc,
    }
}

// The carries put back at the low end: twice, since the first time can leave one.
fn fold(total: u32) -> u16
    ensures { result ≡ fold_once (fold_once total) }
{
    let once = total % 65536 + total / 65536;
    (once % 65536 + once / 65536) as u16
}

// The sum of a block: for up to 800 words folding at the end is folding after every addition (law sum_of-at-end).
fn sum_block(start: u16, block: &[u8]) -> u16
    requires { length block.now ≤ 1600 }
    ensures { result ≡ sum_of start (words_of block.now) }
{
    fold(add_words(start, block))
}

// The ones' complement sum of a part of a packet, added to a start value.
//
// The part may have any length: after an odd number of bytes a zero byte is taken to follow. The start value is the sum of
// another part, so that a sum goes over parts that do not stand side by side. It is folded at the end; in a part of more than
// 1,600 bytes, after every 1,600 too.
pub fn sum(start: u16, part: &[u8]) -> u16
    ensures { result ≡ sum_of start (words_of part.now) }
{
    let mut acc = start;
    for block in part.chunks(1600) {
        acc = sum_block(acc, block);
    }
    acc
}
