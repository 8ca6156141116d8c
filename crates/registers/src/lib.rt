// The sixteen clock registers 00h..0Fh, held as an array by value: single bits, reserved bits, writing, and what the watchdog loads.
#![tactic(auto)]

ghost use Rattle.std.specs.Prelude.{◌≡◌, ◌+◌, ◌≤◌, ◌<◌, length};
ghost use Rattle.registers.specs.Names.{stopped, afe, abe, wdfen};
ghost use Rattle.registers.specs.Written.{kept, reserved_clear, stored, written};
ghost use Rattle.registers.specs.Watchdog.{watchdog_load};

use units::Sixteenths;

// Addresses.
pub const RESERVED: usize = 0x00;

pub const SECONDS: usize = 0x01;

pub const MINUTES: usize = 0x02;

pub const HOURS: usize = 0x03;

pub const WEEKDAY: usize = 0x04;

pub const DATE: usize = 0x05;

pub const MONTH: usize = 0x06;

pub const YEAR: usize = 0x07;

pub const CALIBRATION: usize = 0x08;

pub const WATCHDOG: usize = 0x09;

pub const ALARM_MONTH: usize = 0x0A;

pub const ALARM_DATE: usize = 0x0B;

pub const ALARM_HOUR: usize = 0x0C;

pub const ALARM_MINUTE: usize = 0x0D;

pub const ALARM_SECOND: usize = 0x0E;

pub const ALARM_WEEKDAY: usize = 0x0F;

// Bits: 01h b7, 0Ah b7 and b5, 0Fh b7.
const OSC_ST: u8 = 128;

const AFE: u8 = 128;

const ABE: u8 = 32;

const WDFEN: u8 = 128;

// Kept as four functions, and not as one with the register and the bit as parameters: that one is `common::bit`, and each name here says which bit.

// 01h b7: whether the oscillator is stopped.
pub fn is_stopped(registers: [u8; 16]) -> bool
    ensures { result ≡ stopped registers }
{
    common::bit(registers[SECONDS], OSC_ST)
}

// 0Ah b7: whether a match raises the alarm.
pub fn has_afe(registers: [u8; 16]) -> bool
    ensures { result ≡ afe registers }
{
    common::bit(registers[ALARM_MONTH], AFE)
}

// 0Ah b5: whether the alarm counts in backup.
pub fn has_abe(registers: [u8; 16]) -> bool
    ensures { result ≡ abe registers }
{
    common::bit(registers[ALARM_MONTH], ABE)
}

// 0Fh b7: whether the watchdog's end raises its flag.
pub fn has_wdfen(registers: [u8; 16]) -> bool
    ensures { result ≡ wdfen registers }
{
    common::bit(registers[ALARM_WEEKDAY], WDFEN)
}

// The byte b as register a keeps it: reserved bits are dropped.
fn kept_bits(a: usize, b: u8) -> u8
    requires { a < 16 }
    ensures { result ≡ kept a b }
{
    let kept = [
        0, // 00h
        b, // 01h
        b % 128, // 02h
        b, // 03h
        b % 8, // 04h
        b % 64, // 05h
        b / 64 * 64 + b % 32, // 06h
        b, // 07h
        b / 128 * 128 + b % 64, // 08h
        b, // 09h
        b / 128 * 128 + b % 64, // 0Ah
        b, // 0Bh
        b, // 0Ch
        b, // 0Dh
        b, // 0Eh
        b / 16 * 16, // 0Fh
    ];
    kept[a]
}

// Whether every reserved bit is 0.
pub fn reserved_clear(registers: [u8; 16]) -> bool
    ensures { result ≡ reserved_clear registers }
{
    (registers[RESERVED] == 0)
        & (registers[MINUTES] < 128)
        & (registers[WEEKDAY] < 8)
        & (registers[DATE] < 64)
        & (registers[MONTH] / 32 % 2 == 0)
        & (registers[CALIBRATION] / 64 % 2 == 0)
        & (registers[ALARM_MONTH] / 64 % 2 == 0)
        & (registers[ALARM_WEEKDAY] % 16 == 0)
}

// Stores bytes over dst, whose first byte is register a. The index is kept, since the register's address goes with it.
fn store(dst: &mut [u8], a: usize, bytes: &[u8])
    requires { a + length dst.old ≤ 16 }
    ensures { dst.new ≡ stored a dst.old bytes.now }
{
    for j in 0..dst.len().min(bytes.len()) {
        dst[j] = kept_bits(a + j, bytes[j]);
    }
}

// The registers after bytes are written from address a on: the part from there is lent on to be stored into. Address and bytes are kept as two
// parameters here and above: a struct of the two would hold the slice, and each clause would name both through `.entry`.
pub fn write(mut registers: [u8; 16], a: usize, bytes: &[u8]) -> [u8; 16]
    ensures { result ≡ written registers a bytes.now }
{
    if a <= registers.len() {
        store(&mut registers[a..], a, bytes);
    }
    registers
}

// What a write of the byte b to 09h loads, 0 where that turns the watchdog off: kept as a count, which is what is left of it.
pub fn watchdog_load(b: u8) -> Sixteenths
    ensures { result ≡ watchdog_load b }
{
    let rb = (b / 128 * 4 + b % 4) as usize;
    let bmb = (b / 4 % 32) as u64;
    let loads = [bmb, bmb * 4, bmb * 16, bmb * 64, bmb * 960, 0, 0, 0];
    Sixteenths(loads[rb])
}
