// One line key=value of a text: its key, the part that is its value, words and decimal numbers; a row says what one kind of line may be.
#![tactic(auto)]

ghost use Rattle.std.specs.Prelude.{◌≡◌, ◌+◌, ◌*◌, drop};
ghost use Rattle.text.specs.Text.{fault_number, seek, value_part, word_is, key_is, digits, number_in, part_with, within};
ghost use Rattle.text.specs.Rows.{number_row, blank_row, word_row, no_line, part_bytes};

// Why a text is refused: document 01's numbers 1 to 4.
#[derive(Clone, Copy, PartialEq, Eq)]
pub enum TextFault {
    // not key=value, or not the key due
    NotDue,
    // value malformed or out of range
    BadValue,
    // offer order broken
    OfferOrder,
    // over 65,536 bytes, a start past its end, or it ends inside a line or before its `end` line
    TextEnds,
}

impl TextFault {
    // Document 01's number. `u64::from` would not say which number it is, here and of the refusals above.
    pub fn number(self) -> u64
        ensures { result ≡ fault_number self }
    {
        match self {
            TextFault::NotDue => 1,
            TextFault::BadValue => 2,
            TextFault::OfferOrder => 3,
            TextFault::TextEnds => 4,
        }
    }
}

// One number of a value, and the place of the mark after it or the end.
#[derive(Clone, Copy, PartialEq, Eq)]
pub struct Part {
    pub number: u64,
    pub end: usize,
}

// One kind of line, of one shape for all: an enum of words and numbers would have the key in each arm. A key or a word ends at its '='. The least and the most number of each part stand in a list each: four pairs
// would be written in every row and read by the same place, and are no plainer.
#[derive(Clone, Copy)]
pub struct Row {
    pub key: [u8; 10],
    // what the value must be, where there are no parts
    pub word: [u8; 10],
    // whether the value may be blank
    pub blank: bool,
    // whether it is pairs whose first numbers rise and whose second never fall
    pub order: bool,
    // numbers in the value, at most; it stands with the other small fields, since a row with a gap behind it was copied
    // slower
    pub most: u8,
    // numbers in a group, joined by ':'; groups are joined by ','
    pub parts: usize,
    pub low: [u64; 4],
    pub high: [u64; 4],
}

// The numbers of a line, none where its value is blank or a word. They lie in an array with their count: fixed memory, no heap.
#[derive(Clone, Copy)]
pub struct Line {
    pub count: usize,
    pub number: [u64; 24],
}

// A line that holds nothing.
pub fn no_line() -> Line
    ensures { result ≡ no_line }
{
    Line {
        count: 0,
        number: [0; 24],
    }
}

// key=number, from low to high.
pub fn number_row(key: [u8; 10], low: u64, high: u64) -> Row
    ensures { result ≡ number_row key low high }
{
    Row {
        key,
        word: *b"==========",
        blank: false,
        order: false,
        parts: 1,
        most: 1,
        low: [low, 0, 0, 0],
        high: [high, 0, 0, 0],
    }
}

// key=number, from low to high, or key= with nothing after it.
pub fn blank_row(key: [u8; 10], low: u64, high: u64) -> Row
    ensures { result ≡ blank_row key low high }
{
    Row {
        blank: true,
        ..number_row(key, low, high)
    }
}

// key=word.
pub fn word_row(key: [u8; 10], word: [u8; 10]) -> Row
    ensures { result ≡ word_row key word }
{
    Row {
        key,
        word,
        blank: false,
        order: false,
        parts: 0,
        most: 0,
        low: [0; 4],
        high: [0; 4],
    }
}

// The first place at or after `from` of a mark, or the end.
pub fn find(s: &[u8], from: usize, mark: u8) -> usize
    ensures { result ≡ from + seek mark mark (drop from s.now) }
{
    let Some(rest) = s.get(from..) else {
        return from;
    };
    from + rest.iter().position(|x| *x == mark).unwrap_or(rest.len())
}

// The part of the line after its first '='
pub fn value_of(line: &[u8]) -> &[u8]
    ensures { result.now ≡ value_part line.now }
{
    let i = find(line, 0, b'=');
    if i < line.len() {
        return &line[i + 1..];
    }
    &line[line.len()..]
}

// Whether a text is the word that stands before a '='. Few lines of a text are compared with a word, so this one may look for
// the '=' first.
pub fn word_is(text: &[u8], word: [u8; 10]) -> bool
    ensures { result ≡ word_is text.now word }
{
    let n = find(&word, 0, b'=');
    n < word.len() && text == &word[..n]
}

// Whether the line is key=value with the key due.
pub fn key_is(line: &[u8], key: [u8; 10]) -> bool
    ensures { result ≡ key_is line.now key }
{
    // byte by byte: a list of calls was read slower where the '=' of each key was looked for first
    for i in 0..10 {
        if line.len() <= i || line[i] != key[i] {
            return false;
        }
        if key[i] == b'=' {
            return true;
        }
    }
    false
}

// The number n with the digit d behind it, where it is at most high.
fn with_digit(n: u64, d: u8, high: u64) -> Option<u64>
    ensures { result ≡ within high (n * 10 + d) }
{
    // below 10^18 the product does not wrap: testing it at each digit was slower
    let more = if n < 1000000000000000000 {
        n * 10 + d as u64
    } else {
        n.checked_mul(10)?.checked_add(d as u64)?
    };
    if high < more { None } else { Some(more) }
}

// The digits of the part that begins at `from`, up to its mark or the end. Read digit by digit: the library's `parse` takes a `+` and leading zeros, and
// a `str` that is cut out first.
fn digits_at(value: &[u8], from: usize, high: u64) -> Option<Part>
    ensures { result ≡ part_with (from + seek 58 44 (drop from value.now)) (digits high 0 (part_bytes value.now from)) }
{
    let mut n = 0;
    for i in from..value.len() {
        let x = value[i];
        if x < b'0' || b'9' < x {
            return if x == b',' || x == b':' {
                Some(Part { number: n, end: i })
            } else {
                None
            };
        }
        n = with_digit(n, x - b'0', high)?;
    }
    Some(Part {
        number: n,
        end: from.max(value.len()),
    })
}

// The decimal number of the part that begins at `from`: from low to high, with no leading zero.
pub fn part_at(value: &[u8], from: usize, low: u64, high: u64) -> Option<Part>
    ensures { result ≡ part_with (from + seek 58 44 (drop from value.now)) (number_in low high (part_bytes value.now from)) }
{
    let part = digits_at(value, from, high)?;
    if part.end <= from {
        return None;
    }
    if from + 1 < part.end && value[from] == b'0' {
        return None;
    }
    if part.number < low {
        return None;
    }
    Some(part)
}
