// How the worked examples write bytes: pairs of hexadecimal digits, which go one after the other from place 0 on, and a new place behind @.
#![tactic(auto)]

ghost use Rattle.std.specs.Prelude.{◌≡◌, ◌+◌, ◌*◌, ◌/◌, ◌%◌, ◌≤◌, min, length, get_or, set};
ghost use Rattle.notation.specs.Reading.{digit_of, start, pair_read, digit_read, gap_read, read, stored, read_all, filled};
ghost use Rattle.notation.specs.Line.{index_of, part, end_of, answer_end, number_of, is_written};

use common::byte_or;

// The place of an image that has the number of the bytes lent; the examples write it there.
const LENT: usize = 65;

// A text as far as it was read: the place where the next byte goes, the number that the last five bytes make, also if their digits are decimal,
// the first digit of a pair that is not whole yet, whether that pair is a place, and whether all could be read.
// Kept as flags: `place`, since @ stands before a pair's digits or between them; `readable`, since the bytes behind what cannot be read are stored too.
#[derive(Clone, Copy)]
pub struct Reading {
    pub at: usize,
    pub number: u64,
    pub decimal: u64,
    pub high: Option<u8>,
    pub place: bool,
    pub readable: bool,
}

// The value of a hexadecimal digit.
#[tactic(auto, unfolding(crate::specs::Reading::digit_of))]
fn digit(c: u8) -> Option<u8>
    ensures { result ≡ digit_of c }
{
    match c {
        b'0'..=b'9' => Some(c - b'0'),
        b'A'..=b'F' => Some(c - b'A' + 10),
        _ => None,
    }
}

impl Reading {
    // A pair of digits is whole: a place in decimal, or a byte. Kept by hand, as the two digits of `numbered`: the library has no two digits in a byte.
    fn read_pair(self, value: u8) -> Reading
        ensures { result ≡ pair_read self value }
    {
        let digits = value / 16 * 10 + value % 16;
        if self.place {
            return Reading {
                at: usize::from(digits),
                high: None,
                place: false,
                ..self
            };
        }
        Reading {
            at: self.at % 256 + 1,
            number: self.number % 4_294_967_296 * 256 + u64::from(value),
            decimal: self.decimal % 4_294_967_296 * 100 + u64::from(digits),
            high: None,
            ..self
        }
    }

    fn read_digit(self, d: u8) -> Reading
        ensures { result ≡ digit_read self d }
    {
        match self.high {
            Some(high) => self.read_pair(high % 16 * 16 + d % 16),
            None => Reading {
                high: Some(d),
                ..self
            },
        }
    }

    // A space or a mark between the parts of a line ends a pair, which has to be whole.
    fn read_gap(self, c: u8) -> Reading
        ensures { result ≡ gap_read self c }
    {
        let gap = matches!(c, b' ' | b'-' | b'>' | b'|');
        Reading {
            high: None,
            place: false,
            readable: self.readable & gap & self.high.is_none() & !self.place,
            ..self
        }
    }

    // The next character is read.
    #[tactic(auto, unfolding(crate::specs::Reading::read))]
    fn read(self, c: u8) -> Reading
        ensures { result ≡ read self c }
    {
        match digit(c) {
            Some(d) => self.read_digit(d),
            None if c == b'@' => Reading {
                place: true,
                ..self
            },
            None => self.read_gap(c),
        }
    }
}

// Stores the byte that the next character makes whole.
#[tactic(auto, unfolding(crate::specs::Reading::stored))]
fn store(bytes: &mut [u8], s: Reading, c: u8)
    ensures { bytes.new ≡ stored s c bytes.old }
{
    if let (Some(high), Some(d), false) = (s.high, digit(c), s.place)
        && s.at < bytes.len()
    {
        bytes[s.at] = high % 16 * 16 + d % 16;
    }
}

// Reads a text, and puts its bytes into a slice.
#[tactic(auto, unfolding(crate::specs::Reading::read_all, crate::specs::Reading::filled))]
fn read_all(bytes: &mut [u8], text: &[u8]) -> Reading
    ensures value { result ≡ read_all start text.now }
    ensures bytes_after { bytes.new ≡ filled start text.now bytes.old }
{
    let mut s = Reading {
        at: 0,
        number: 0,
        decimal: 0,
        high: None,
        place: false,
        readable: true,
    };
    for &c in text {
        store(bytes, s, c);
        s = s.read(c);
    }
    s.read(b' ')
}

// The place of the first byte b of a text, or the text's length where there is none.
pub fn index_of(text: &[u8], b: u8) -> usize
    ensures value { result ≡ index_of b text.now }
    ensures within { result ≤ length text.now }
{
    text.iter().position(|x| *x == b).unwrap_or(text.len())
}

// The part of a line from one mark up to another, or to the end.
#[derive(Clone, Copy)]
pub struct Part<'a> {
    pub line: &'a [u8],
    pub from: u8,
    pub to: u8,
}

impl<'a> Part<'a> {
    // The part itself, cut out of the line by slices.
    #[tactic(auto, unfolding(crate::specs::Line::part))]
    fn text(self) -> &'a [u8]
        ensures { result.now ≡ part self.entry.from self.entry.to self.entry.line.now }
    {
        let end = index_of(self.line, self.to);
        let start = index_of(&self.line[..end], self.from);
        &self.line[start..end]
    }

    // Puts the bytes of the part into a slice. The answer is the place behind the last of them, and none if the part cannot be read.
    #[tactic(auto, unfolding(crate::specs::Line::end_of))]
    pub fn fill(self, bytes: &mut [u8]) -> Option<usize>
        ensures value { result ≡ end_of self.entry.from self.entry.to self.entry.line.now }
        ensures bytes_after { bytes.new ≡ filled start (part self.entry.from self.entry.to self.entry.line.now) bytes.old }
    {
        let read = read_all(bytes, self.text());
        read.readable.then_some(read.at)
    }

    // The number that at most five bytes of the part make.
    #[tactic(auto, unfolding(crate::specs::Line::number_of))]
    pub fn number(self, decimal: bool) -> Option<u64>
        ensures { result ≡ number_of self.entry.from self.entry.to decimal self.entry.line.now }
    {
        let read = read_all(&mut [0; 5], self.text());
        let number = if decimal { read.decimal } else { read.number };
        (read.readable && read.at <= 5).then_some(number)
    }

    // Whether what was got is what the part makes of the bytes.
    #[tactic(auto, using(crate::proofs::Parts::same_if_equal), unfolding(crate::specs::Line::is_written))]
    pub fn is_written(self, mut bytes: [u8; 66], got: [u8; 66]) -> bool
        ensures { result ≡ is_written self.entry.from self.entry.to self.entry.line.now bytes got }
    {
        self.fill(&mut bytes).is_some_and(|end| end <= 66) && got == bytes
    }
}

// Where the answer that a line writes ends: behind its number, and at most 66 bytes.
#[tactic(auto, unfolding(crate::specs::Line::answer_end))]
pub fn answer_end(line: &[u8]) -> usize
    ensures value { result ≡ answer_end line.now }
    ensures least { 1 ≤ result }
    ensures most { result ≤ 66 }
{
    let answer = Part {
        line,
        from: b'>',
        to: b'|',
    };
    answer.fill(&mut [0; 1]).unwrap_or(66).clamp(1, 66)
}

// An answer with its number, as two decimal digits, in front.
pub fn numbered(mut answer: [u8; 66], number: u32) -> [u8; 66]
    ensures { result ≡ set answer 0 (number / 10 % 10 * 16 + number % 10) }
{
    answer[0] = (number / 10 % 10 * 16 + number % 10) as u8;
    answer
}

// How many bytes of an image are lent to a call.
pub fn lent(image: &[u8]) -> usize
    ensures value { result ≡ min (get_or image.now 65 0) (length image.now) }
    ensures most { result ≤ length image.now }
{
    usize::from(byte_or(image, LENT, 0)).min(image.len())
}
