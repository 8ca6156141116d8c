// What the panel shows: digits, clock face, and the lines STBY, MUTE and IRQ.
#![tactic(auto)]

ghost use Rattle.std.specs.Prelude.{◌≡◌, take};
ghost use Rattle.display.specs.Font.{segments, nibbles};
ghost use Rattle.display.specs.Hours.{leading, unpadded, hours_shown};
ghost use Rattle.display.specs.Face.{placed, face_of};
ghost use Rattle.display.specs.Shown.{five_digits, shown};
ghost use Rattle.display.specs.Lines.{mute, irq, lines_of};

use registers::{CALIBRATION, DATE, HOURS, MINUTES, MONTH, SECONDS};

// 03h b7 and b6.
const MD_H: u8 = 128;

const M_MS: u8 = 64;

// 08h b7, 12/24.
const TWELVE_HOURS: u8 = 128;

// Configuration b3, the clock face.
const CLOCK_FACE: u8 = 8;

// b4 of the display's control byte.
const DISPLAY_ON: u8 = 16;

const FONT: [u8; 10] = [0x3F, 0x06, 0x5B, 0x4F, 0x66, 0x6D, 0x7D, 0x07, 0x7F, 0x6F];

const DASH: u8 = 0x40;

const BLANK: u8 = 0x00;

const POINT: u8 = 0x80;

// The lines' bits.
const STBY: u8 = 1;

const MUTE: u8 = 2;

const IRQ: u8 = 4;

// Digits in use 1..5; b4 on, b3..b0 brightness; the digit bytes. Kept as five bytes with the digits in use beside them: all five can be written,
// whatever is in use.
#[derive(Clone, Copy)]
pub struct Display {
    pub digits: u8,
    pub control: u8,
    pub bytes: [u8; 5],
}

// The segments of two digits.
#[derive(Clone, Copy)]
pub struct Pair {
    pub tens: u8,
    pub ones: u8,
}

// The segments of a nibble.
#[tactic(auto, unfolding(crate::specs::Font::segments))]
fn write_digit(nibble: u8) -> u8
    ensures { result ≡ segments nibble }
{
    FONT.get(nibble as usize).copied().unwrap_or(DASH)
}

// The segments of a leading digit.
#[tactic(auto, unfolding(crate::specs::Hours::leading))]
fn write_leading(digit: u8) -> u8
    ensures { result ≡ leading digit }
{
    if digit == 0 {
        return BLANK;
    }
    write_digit(digit)
}

// A BCD byte, nibble by nibble.
fn write_nibbles(b: u8) -> Pair
    ensures { result ≡ nibbles b }
{
    Pair {
        tens: write_digit(b / 16),
        ones: write_digit(b % 16),
    }
}

// A number by its two decimal digits, the leading zero blank. Kept beside `write_nibbles`: base 10 and a blank here, base 16 and a digit there.
fn write_unpadded(x: u8) -> Pair
    ensures { result ≡ unpadded x }
{
    Pair {
        tens: write_leading(x / 10),
        ones: write_digit(x % 10),
    }
}

// The hours: from 1 to 12 where 12/24 is set, else nibble by nibble. The two digits are kept in eight bits, where `timekeeper` has them in 32.
#[tactic(auto, unfolding(crate::specs::Hours::hours_shown))]
fn write_hours(registers: [u8; 16]) -> Pair
    ensures { result ≡ hours_shown registers }
{
    let hours = registers[HOURS] % 64;
    if common::bit(registers[CALIBRATION], TWELVE_HOURS) {
        let h = hours / 16 * 10 + hours % 16;
        return write_unpadded((h + 11) % 12 + 1);
    }
    write_nibbles(hours)
}

// Two pairs on digits 1 to 4, the point on digit 2.
fn place(left: Pair, right: Pair) -> [u8; 4]
    ensures { result ≡ placed left right }
{
    [left.tens, left.ones | POINT, right.tens, right.ones]
}

// The clock face on digits 1 to 4. A field's nibbles are what its register's other bits leave.
#[tactic(auto, unfolding(crate::specs::Face::face_of))]
pub fn face(registers: [u8; 16]) -> [u8; 4]
    ensures { result ≡ face_of registers }
{
    if common::bit(registers[HOURS], MD_H) {
        return place(
            write_nibbles(registers[MONTH] % 32),
            write_nibbles(registers[DATE] % 64),
        );
    }
    if common::bit(registers[HOURS], M_MS) {
        return place(
            write_nibbles(registers[MINUTES] % 128),
            write_nibbles(registers[SECONDS] % 128),
        );
    }
    place(
        write_hours(registers),
        write_nibbles(registers[MINUTES] % 128),
    )
}

// The bytes of the first n digits, the others 0.
fn in_use(n: u8, mut bytes: [u8; 5]) -> [u8; 5]
    ensures { result ≡ five_digits (take n bytes) }
{
    let used = (n as usize).min(bytes.len());
    bytes[used..].fill(BLANK);
    bytes
}

// What show writes.
#[tactic(auto, unfolding(crate::specs::Shown::content))]
pub fn show(registers: [u8; 16], configuration: u8, stby: bool, d: Display) -> [u8; 5]
    ensures { result ≡ shown registers configuration stby d }
{
    let on = common::bit(d.control, DISPLAY_ON);
    let clock = common::bit(configuration, CLOCK_FACE);
    if !on | (stby & !clock) {
        return [BLANK; 5];
    }
    if clock & (4 <= d.digits) {
        let [first, second, third, fourth] = face(registers);
        return [first, second, third, fourth, BLANK];
    }
    in_use(d.digits, d.bytes)
}

// Whether MUTE is high.
fn is_mute_high(ready: bool) -> bool
    ensures { result ≡ mute ready }
{
    !ready
}

// Whether IRQ is asserted.
fn is_irq_asserted(ready: bool, stby: bool, interrupt: u8) -> bool
    ensures { result ≡ irq ready stby interrupt }
{
    !stby & ready & (interrupt != 0)
}

// The byte that lines writes.
#[tactic(auto, unfolding(crate::specs::Lines::lines_of))]
pub fn lines(ready: bool, stby: bool, interrupt: u8) -> u8
    ensures { result ≡ lines_of ready stby interrupt }
{
    common::weight(stby, STBY)
        + common::weight(is_mute_high(ready), MUTE)
        + common::weight(is_irq_asserted(ready, stby, interrupt), IRQ)
}
