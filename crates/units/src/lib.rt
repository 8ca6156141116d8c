// The two units of time and the only conversions between them: the guard value and a supply cut are seconds, the timers run in sixteenths.
#![tactic(auto)]

ghost use Rattle.std.specs.Prelude.{◌≡◌};
ghost use Rattle.units.specs.Units.{sixteenths_of, one_more, fills_second};

// Sixteenths in a second.
const PER_SECOND: u64 = 16;

// A count of seconds.
#[derive(Clone, Copy, PartialEq, Eq, PartialOrd, Ord, Debug)]
pub struct Seconds(pub u32);

// A count of sixteenths of a second; wide enough for any count of seconds.
#[derive(Clone, Copy, PartialEq, Eq, PartialOrd, Ord, Debug)]
pub struct Sixteenths(pub u64);

// The same time in sixteenths.
impl From<Seconds> for Sixteenths {
    ghost from_gives = { λ s x. x ≡ sixteenths_of s };

    fn from(s: Seconds) -> Sixteenths {
        Sixteenths(PER_SECOND * u64::from(s.0))
    }
}

impl Sixteenths {
    // Whether the next sixteenth fills a second; asked of the count before it, which may be the greatest there is.
    pub fn fills_with_next(self) -> bool
        ensures { result ≡ fills_second (one_more self) }
    {
        PER_SECOND - 1 <= self.0
    }
}
