ghost use Rattle.std.specs.Prelude.{◌≤◌, length};

// Where a word of a line stands: from at up to end, one space after it unless the line ends there.
#[derive(Clone, Copy)]
pub struct Word {
    pub at: usize,
    pub end: usize,
}

// The next space from a place on, or the end of the line.
fn word_end(line: &[u8], at: usize) -> usize
    requires { at ≤ length line.now }
    ensures { (at ≤ result) × (result ≤ length line.now) }
{
    for i in at..line.len() {
        if line[i] == b' ' {
            return i;
        }
    }
    line.len()
}

pub fn first_word(line: &[u8]) -> Word {
    let end = word_end(line, 0);
    Word { at: 0, end: end }
}

// The word after one; an empty one where there is none.
pub fn next_word(line: &[u8], w: Word) -> Word {
    let past = w.end;
    if past < line.len() {
        let at = past + 1;
        let end = word_end(line, at);
        return Word { at: at, end: end };
    }
    Word {
        at: line.len(),
        end: line.len(),
    }
}

// The bytes of a line's word; the whole line where the word is none of it.
pub fn part<'a>(line: &'a [u8], w: Word) -> &'a [u8] {
    line.get(w.at..w.end).unwrap_or(line)
}

// Whether a word of a line is this one.
pub fn is_word(line: &[u8], w: Word, name: &[u8]) -> bool {
    part(line, w) == name
}

// Which of some names, with one space between them, a word is: how many stand before it.
pub fn name_index(names: &[u8], line: &[u8], w: Word) -> Option<usize> {
    let mut count = 0;
    let mut at = 0;
    while at < names.len() {
        let end = word_end(names, at);
        if is_word(line, w, &names[at..end]) {
            return Some(count);
        }
        count += 1;
        at = end + 1;
    }
    None
}
