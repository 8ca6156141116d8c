// What the clock registers say: the calendar, the alarm, whether they are valid, and what a write to them leaves.
#![tactic(auto)]

ghost use Rattle.std.specs.Prelude.{◌≡◌, ◌/◌};
ghost use Rattle.common.specs.Tests.{conj};
ghost use Rattle.timekeeper.specs.Bcd.{digits, bcd, decimal_tests};
ghost use Rattle.timekeeper.specs.Clock.{field_bytes, clock_of, valid_calendar, under_b7, under_b7_b6, with_clock};
ghost use Rattle.timekeeper.specs.Alarm.{field_of, alarm_of};
ghost use Rattle.timekeeper.specs.Commit.{committed};

use alarm::Alarm;
use calendar::Clock;
use common::Refusal;
use registers::{
    ALARM_DATE, ALARM_HOUR, ALARM_MINUTE, ALARM_MONTH, ALARM_SECOND, ALARM_WEEKDAY, CALIBRATION,
    DATE, HOURS, MINUTES, MONTH, RESERVED, SECONDS, WATCHDOG, WEEKDAY, YEAR,
};

// 0Eh, 0Dh, 0Ch and 0Bh b7, 0Bh b6, 0Ch b6: the second, minute, hour, date, month or weekday is not compared.
const RPT1: u8 = 128;

const RPT2: u8 = 128;

const RPT3: u8 = 128;

const RPT4: u8 = 128;

const RPT5: u8 = 64;

const RPT6: u8 = 64;

// The value of an alarm field whose byte has a nibble above 9: no possible time, and so kept as a value, for which no search needs a case.
const NO_TIME: u32 = 255;

// The number that a byte's two digits write. Kept by hand, with its inverse below: the library has no two digits in a byte.
fn number(b: u8) -> u32
    ensures { result ≡ digits b }
{
    (b / 16 * 10 + b % 16) as u32
}

// The byte of a number's last two digits.
fn bcd_byte(x: u32) -> u8
    ensures { result ≡ bcd x }
{
    (x / 10 % 10 * 16 + x % 10) as u8
}

// The century in b7 and b6.
fn century(b: u8) -> u32
    ensures { result ≡ b / 64 }
{
    (b / 64) as u32
}

// The calendar that the registers hold.
#[tactic(auto, unfolding(crate::specs::Clock::clock_of))]
pub fn clock_of(registers: [u8; 16]) -> Clock
    ensures { result ≡ clock_of registers }
{
    Clock {
        century: century(registers[MONTH]),
        year: number(registers[YEAR]),
        month: number(registers[MONTH] % 64),
        date: number(registers[DATE]),
        weekday: number(registers[WEEKDAY]),
        hour: number(registers[HOURS] % 64),
        minute: number(registers[MINUTES]),
        second: number(registers[SECONDS] % 128),
    }
}

// Whether each nibble of the calendar is at most 9. Kept test by test, as their list `timekeeper/Bcd.decimal_tests` has them.
fn decimal_fields(registers: [u8; 16]) -> bool
    ensures { result ≡ conj (decimal_tests (field_bytes registers)) }
{
    let second = registers[SECONDS] % 128;
    let minute = registers[MINUTES];
    let hour = registers[HOURS] % 64;
    let weekday = registers[WEEKDAY];
    let date = registers[DATE];
    let month = registers[MONTH] % 64;
    let year = registers[YEAR];
    (second / 16 <= 9)
        & (second % 16 <= 9)
        & (minute / 16 <= 9)
        & (minute % 16 <= 9)
        & (hour / 16 <= 9)
        & (hour % 16 <= 9)
        & (weekday / 16 <= 9)
        & (weekday % 16 <= 9)
        & (date / 16 <= 9)
        & (date % 16 <= 9)
        & (month / 16 <= 9)
        & (month % 16 <= 9)
        & (year / 16 <= 9)
        & (year % 16 <= 9)
}

// Whether the registers hold a calendar that exists; bytes of two decimal digits are in the order of their numbers.
pub fn valid(registers: [u8; 16]) -> bool
    ensures { result ≡ valid_calendar registers }
{
    if !decimal_fields(registers) {
        return false;
    }
    let date = number(registers[DATE]);
    let month = number(registers[MONTH] % 64);
    let year = number(registers[YEAR]);
    let leapyear = calendar::is_leap(century(registers[MONTH]), year);
    let last = calendar::month_length(leapyear, month);
    (registers[SECONDS] % 128 <= 0x59)
        & (registers[MINUTES] <= 0x59)
        & (registers[HOURS] % 64 <= 0x23)
        & (1 <= registers[WEEKDAY])
        & (registers[WEEKDAY] <= 7)
        & (1 <= date)
        & (date <= last)
        & (1 <= month)
        & (month <= 12)
        & (year <= 99)
}

// A byte below the flag in b7. Kept beside `under_b7_b6`: with the weight as a parameter the sum fits a byte only on a condition.
fn under_b7(flag: u8, b: u8) -> u8
    ensures { result ≡ under_b7 flag b }
{
    flag / 128 * 128 + b % 128
}

// A byte below the flags in b7 and b6.
fn under_b7_b6(flags: u8, b: u8) -> u8
    ensures { result ≡ under_b7_b6 flags b }
{
    flags / 64 * 64 + b % 64
}

// The registers with another calendar in 01h..07h; flag bits stay.
#[tactic(auto, unfolding(crate::specs::Clock::with_clock))]
pub fn with_clock(registers: [u8; 16], c: Clock) -> [u8; 16]
    ensures { result ≡ with_clock registers c }
{
    let second = under_b7(registers[SECONDS], bcd_byte(c.second));
    let minute = bcd_byte(c.minute);
    let hour = under_b7_b6(registers[HOURS], bcd_byte(c.hour));
    let weekday = bcd_byte(c.weekday);
    let date = bcd_byte(c.date);
    let month = bcd_byte(c.month);
    let year = bcd_byte(c.year);
    [
        registers[RESERVED],
        second,
        minute,
        hour,
        weekday,
        date,
        (c.century % 4 * 64) as u8 + month % 64,
        year,
        registers[CALIBRATION],
        registers[WATCHDOG],
        registers[ALARM_MONTH],
        registers[ALARM_DATE],
        registers[ALARM_HOUR],
        registers[ALARM_MINUTE],
        registers[ALARM_SECOND],
        registers[ALARM_WEEKDAY],
    ]
}

// An alarm field: not compared with its RPT bit set.
fn field(rpt: bool, b: u8) -> Option<u32>
    ensures { result ≡ field_of rpt b }
{
    let decimal = (b / 16 <= 9) & (b % 16 <= 9);
    let value = if decimal { number(b) } else { NO_TIME };
    if rpt { None } else { Some(value) }
}

// The alarm that the registers hold.
#[tactic(auto, unfolding(crate::specs::Alarm::alarm_of))]
pub fn alarm_of(registers: [u8; 16]) -> Alarm
    ensures { result ≡ alarm_of registers }
{
    let month = registers[ALARM_MONTH];
    let date = registers[ALARM_DATE];
    let hour = registers[ALARM_HOUR];
    let minute = registers[ALARM_MINUTE];
    let second = registers[ALARM_SECOND];
    let weekday = registers[ALARM_WEEKDAY];
    Alarm {
        second: field(common::bit(second, RPT1), second % 128),
        minute: field(common::bit(minute, RPT2), minute % 128),
        hour: field(common::bit(hour, RPT3), hour % 64),
        date: field(common::bit(date, RPT4), date % 64),
        month: field(common::bit(date, RPT5), month % 32),
        weekday: field(common::bit(hour, RPT6), weekday / 16 % 8),
    }
}

// Command 50h: bytes from address a on, all or nothing, judged on the finished registers. Address and bytes are kept apart as in `registers::write`.
#[tactic(auto, unfolding(crate::specs::Commit::committed))]
pub fn commit(registers: [u8; 16], a: usize, bytes: &[u8]) -> Result<[u8; 16], Refusal>
    ensures { result ≡ committed registers a bytes.now }
{
    let next = registers::write(registers, a, bytes);
    if valid(next) {
        Ok(next)
    } else {
        Err(Refusal::InvalidCalendar)
    }
}
