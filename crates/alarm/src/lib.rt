// The alarm: the match of a second, the first match of a day, and the first match among the seconds reached.
#![tactic(auto)]

ghost use Rattle.std.specs.Prelude.{◌≡◌, ◌-◌, ◌≤◌, ◌<◌};
ghost use Rattle.calendar.specs.Carry.{at_time};
ghost use Rattle.alarm.specs.Search.{first_from};
ghost use Rattle.alarm.specs.Skip.{candidate_after};
ghost use Rattle.alarm.specs.Match.{fits, matches, time_fits, day_fits, in_range, possible};
ghost use Rattle.alarm.specs.Reached.{any_reached, first_reached};

use calendar::{Clock, Span};
use units::Seconds;

// A field is not compared where it is None.
#[derive(Clone, Copy)]
pub struct Alarm {
    pub second: Option<u32>,
    pub minute: Option<u32>,
    pub hour: Option<u32>,
    pub date: Option<u32>,
    pub month: Option<u32>,
    pub weekday: Option<u32>,
}

#[tactic(auto, unfolding(crate::specs::Match::fits))]
fn field_fits(field: Option<u32>, x: u32) -> bool
    ensures { result ≡ fits field x }
{
    field.is_none_or(|value| value == x)
}

#[tactic(auto, unfolding(crate::specs::Match::in_range))]
fn field_within(field: Option<u32>, lo: u32, hi: u32) -> bool
    ensures { result ≡ in_range field lo hi }
{
    field.is_none_or(|value| (lo <= value) & (value <= hi))
}

impl Alarm {
    // Whether the time of the day fits at its second t.
    #[tactic(auto, unfolding(crate::specs::Match::time_fits))]
    fn time_fits(self, t: u32) -> bool
        ensures { result ≡ time_fits self t }
    {
        field_fits(self.second, t % 60)
            & field_fits(self.minute, t / 60 % 60)
            & field_fits(self.hour, t / 3_600)
    }

    // Whether the day fits.
    #[tactic(auto, unfolding(crate::specs::Match::day_fits))]
    fn day_fits(self, c: Clock) -> bool
        ensures { result ≡ day_fits self c }
    {
        field_fits(self.date, c.date)
            & field_fits(self.month, c.month)
            & field_fits(self.weekday, c.weekday)
    }

    // Whether the second matches.
    #[tactic(auto, unfolding(crate::specs::Match::matches, crate::specs::Match::day_fits))]
    pub fn match_second(self, c: Clock) -> bool
        ensures { result ≡ matches self c }
    {
        field_fits(self.second, c.second)
            & field_fits(self.minute, c.minute)
            & field_fits(self.hour, c.hour)
            & self.day_fits(c)
    }

    // Whether every compared field is a possible time.
    #[tactic(auto, unfolding(crate::specs::Match::possible))]
    fn is_possible(self) -> bool
        ensures { result ≡ possible self }
    {
        field_within(self.second, 0, 59)
            & field_within(self.minute, 0, 59)
            & field_within(self.hour, 0, 23)
            & field_within(self.date, 1, 31)
            & field_within(self.month, 1, 12)
            & field_within(self.weekday, 1, 7)
    }

    // Where to look on after the second u of the day did not fit: hours and minutes that cannot fit are passed over.
    #[tactic(auto, unfolding(crate::specs::Skip::candidate_after))]
    fn candidate_after(self, u: u32) -> u32
        requires { u < 86_400 }
        ensures { result ≡ candidate_after self u }
    {
        if !field_fits(self.hour, u / 3_600) {
            return (u / 3_600 + 1) * 3_600;
        }
        if !field_fits(self.minute, u / 60 % 60) {
            return (u / 60 + 1) * 60;
        }
        u + 1
    }

    // The first second of the day from t on at which the time fits, or 86,400; past the day, t itself.
    fn first_time(self, t: u32) -> u32
        ensures { result ≡ first_from (time_fits self) t (86_400 - t) }
    {
        // Kept as a number for none, as in `first_match`, and as a `while`: a step passes over a second, a minute or an hour.
        let mut u = t;
        while u < 86_400 {
            if self.time_fits(u) {
                return u;
            }
            u = self.candidate_after(u);
        }
        u
    }

    // The first second from t on at which the day of c matches, or 86,400, the number that `first_from` is where none does.
    pub fn first_on_day(self, c: Clock, t: u32) -> u32
        requires { t ≤ 86_400 }
        ensures { result ≡ first_from (λ u. matches self (at_time c u)) t (86_400 - t) }
    {
        if !self.day_fits(c) {
            return 86_400;
        }
        self.first_time(t)
    }

    // The least k from 1 to n such that the clock moved on k seconds matches, or n + 1: a walk over the days.
    fn walk_days(self, span: Span) -> u32
        ensures { result ≡ first_reached (matches self) span.start span.seconds.0 }
    {
        let n = span.seconds.0;
        let start = span.start.second_of_day();
        let mut day = span.start.at_time(0);
        let mut from = start + 1;
        for k in 0..(start + n) / 86_400 + 1 {
            let u = self.first_on_day(day, from);
            if u < 86_400 {
                return (86_400 * k + u - start).min(n + 1);
            }
            day = day.next_day();
            from = 0;
        }
        n + 1
    }

    // The least count of the seconds after which the clock matches, or one more than all of them; no second and an impossible field cost no walk.
    // Kept as a number and no Option: the clause says the number `alarm/Reached.first_reached`, which is one more where none matches.
    pub fn first_match(self, span: Span) -> Seconds
        ensures { result.0 ≡ first_reached (matches self) span.start span.seconds.0 }
    {
        let n = span.seconds.0;
        if (n == 0) | !self.is_possible() {
            return Seconds(n + 1);
        }
        Seconds(self.walk_days(span))
    }

    // Whether one of the seconds reached matches.
    #[tactic(auto, using(crate::proofs::Reached::any_first))]
    pub fn any_match(self, span: Span) -> bool
        ensures { result ≡ any_reached (matches self) span.start span.seconds.0 }
    {
        self.first_match(span).0 <= span.seconds.0
    }
}
