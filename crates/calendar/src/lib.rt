// The calendar: leap years, months, the carry of a second and of a day, and moving on by a count of seconds.
#![tactic(auto)]

ghost use Rattle.std.specs.Prelude.{◌≡◌, ◌*◌, ◌+◌};
ghost use Rattle.calendar.specs.Date.{leap, month_length};
ghost use Rattle.calendar.specs.Clock.{Valid, time_of};
ghost use Rattle.calendar.specs.Carry.{at_time, next_weekday, next_day, next};

mod span;

pub use span::Span;

// The longest time that is moved on at once, in seconds.
pub const LIMIT: u32 = 31_622_400;

// Century 0..3, year 00..99, month 1..12, date from 1, weekday 1..7, hour 0..23, minute and second 0..59.
#[derive(Clone, Copy, PartialEq, Eq, Debug)]
pub struct Clock {
    pub century: u32,
    pub year: u32,
    pub month: u32,
    pub date: u32,
    pub weekday: u32,
    pub hour: u32,
    pub minute: u32,
    pub second: u32,
}

// Whether a year is a leap year: by its two digits alone; the century is taken too so that a rule that looks at it (request E2) changes no caller.
pub fn is_leap(century: u32, year: u32) -> bool
    ensures { result ≡ leap (100 * century + year) }
{
    year % 100 % 4 == 0
}

// The days of a month, counted from 1.
#[tactic(auto, unfolding(crate::specs::Date::month_length))]
pub fn month_length(leapyear: bool, month: u32) -> u32
    ensures { result ≡ month_length leapyear month }
{
    match month {
        2 if leapyear => 29,
        2 => 28,
        4 | 6 | 9 | 11 => 30,
        _ => 31,
    }
}

fn next_weekday(w: u32) -> u32
    ensures { result ≡ next_weekday w }
{
    if w < 7 { w + 1 } else { 1 }
}

impl Clock {
    // The next day at the same time: date, month, year and century carry.
    #[tactic(auto, unfolding(crate::specs::Carry::next_day))]
    pub fn next_day(self) -> Clock
        ensures { result ≡ next_day self }
    {
        let leapyear = is_leap(self.century, self.year);
        let length = month_length(leapyear, self.month);
        let weekday = next_weekday(self.weekday);
        let day = Clock { weekday, ..self };
        if self.date < length {
            return Clock {
                date: self.date + 1,
                ..day
            };
        }
        let first = Clock { date: 1, ..day };
        if self.month < 12 {
            return Clock {
                month: self.month + 1,
                ..first
            };
        }
        let january = Clock { month: 1, ..first };
        if self.year < 99 {
            return Clock {
                year: self.year + 1,
                ..january
            };
        }
        let century = if self.century < 3 {
            self.century + 1
        } else {
            0
        };
        Clock {
            century,
            year: 0,
            ..january
        }
    }

    // The next second: second, minute and hour carry, and at midnight the day.
    #[tactic(auto, unfolding(crate::specs::Carry::next))]
    pub fn next_second(self) -> Clock
        ensures { result ≡ next self }
    {
        if self.second < 59 {
            return Clock {
                second: self.second + 1,
                ..self
            };
        }
        if self.minute < 59 {
            return Clock {
                minute: self.minute + 1,
                second: 0,
                ..self
            };
        }
        if self.hour < 23 {
            return Clock {
                hour: self.hour + 1,
                minute: 0,
                second: 0,
                ..self
            };
        }
        Clock {
            hour: 0,
            minute: 0,
            second: 0,
            ..self.next_day()
        }
    }

    // The second of the day.
    pub fn second_of_day(self) -> u32
        requires { Valid self }
        ensures { result ≡ time_of self }
    {
        3_600 * self.hour + 60 * self.minute + self.second
    }

    // The same day, at the second t of the day.
    pub fn at_time(self, t: u32) -> Clock
        ensures { result ≡ at_time self t }
    {
        Clock {
            hour: t / 3_600,
            minute: t / 60 % 60,
            second: t % 60,
            ..self
        }
    }
}
