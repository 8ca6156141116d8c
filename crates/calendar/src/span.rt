// Some seconds that pass from a valid clock on.
ghost use Rattle.std.specs.Prelude.{◌≡◌, ◌≤◌};
ghost use Rattle.calendar.specs.Clock.{limit, Valid, moved};

use crate::Clock;
use units::Seconds;

// The seconds reached after a valid clock: as many as are moved on at once.
#[derive(Clone, Copy)]
pub struct Span {
    pub start: Clock,
    pub seconds: Seconds,
    ghost valid: { Valid start },
    ghost within: { seconds.0 ≤ limit },
}

impl Span {
    // The clock at the last of the seconds: a walk over the midnights passed.
    pub fn end(self) -> Clock
        ensures { result ≡ moved self.start self.seconds.0 }
    {
        let last = self.start.second_of_day() + self.seconds.0;
        let mut day = self.start.at_time(0);
        for _ in 0..last / 86_400 {
            day = day.next_day();
        }
        day.at_time(last % 86_400)
    }
}
