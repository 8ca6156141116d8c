// What both panel kinds share: the state by value, and the events, which stand by subject in the modules. Each event takes the state and gives
// the next one.
#![tactic(auto)]

ghost use Rattle.std.specs.Prelude.{◌≡◌};
ghost use Rattle.controller.specs.Standby.{standby_begun, standby_ended, bit_of, raised};

mod pins;
mod remote_key;
mod samples;
mod start;
mod tick;

use units::{Seconds, Sixteenths};

// Sources of the interrupt byte, by their bits with STBY high; with STBY low the bits are four higher.
#[derive(Clone, Copy, PartialEq, Eq, Debug)]
enum Source {
    Rtc = 1,
    WakeUp = 2,
    Remote = 4,
    Key = 8,
}

// Bits of the configuration: b0 the guard's end begins standby, b1 every key is hot, b2 a remote key wakes, b5 WAKE_UP counts.
const GUARD_STANDBY: u8 = 1;

const ALL_HOT: u8 = 2;

const REMOTE_WAKES: u8 = 4;

const WAKE_UP_COUNTS: u8 = 32;

// Bits of the flags.
pub const ALARM_FLAG: u8 = 1;

const WATCHDOG_FLAG: u8 = 2;

// The clock registers, the sixteenths, the flags (b0 alarm, b1 watchdog) and what is left of the watchdog, 0 where it is not running. What is left
// is kept as a count, and not as an Option: 0 is the count that the last tick leaves, and what the image holds (`image/Image.rtc_in`).
#[derive(Clone, Copy)]
pub struct Rtc {
    pub registers: [u8; 16],
    pub sixteenths: Sixteenths,
    pub flags: u8,
    pub watchdog: Sixteenths,
}

// The lines READY, WAKE_UP and STBY, and what is left of the guard, 0 where it is not running, kept as a count as in `Rtc`.
// The three levels are kept as flags: no value stands beside one.
#[derive(Clone, Copy)]
pub struct Power {
    pub ready: bool,
    pub wakeup: bool,
    pub stby: bool,
    pub guard: Sixteenths,
}

// The last configuration bits, the remote protocol and the guard value. The protocol is kept as its number, and not as an enum: an image holds any
// number below 8 here until it is judged, and `image::decode` gives a state for each (`image/Image.setup_in`).
#[derive(Clone, Copy)]
pub struct Setup {
    pub configuration: u8,
    pub protocol: u8,
    pub guardvalue: Seconds,
}

// The hot-key mask, the last sample, the accepted keys and the key store, wide enough for both panel kinds.
#[derive(Clone, Copy)]
pub struct Keys {
    pub mask: u32,
    pub sample: u32,
    pub accepted: u32,
    pub store: u32,
}

// The remote key: fresh 0 or 1, address and command. Kept as three bytes, and not as an Option: an image holds any three bytes here until it is
// judged, `image::decode` gives a state for each (`image/Image.remote_in`), and 62h replies them as they stand (`panel/Read.remote_reply`).
#[derive(Clone, Copy)]
pub struct Remote {
    pub fresh: u8,
    pub address: u8,
    pub command: u8,
}

#[derive(Clone, Copy)]
pub struct Core {
    pub rtc: Rtc,
    pub power: Power,
    pub setup: Setup,
    pub keys: Keys,
    pub remote: Remote,
    pub interrupt: u8,
}

impl Core {
    // STBY goes high and the guard stops.
    pub fn begin_standby(mut self) -> Core
        ensures { result ≡ standby_begun self }
    {
        self.power.stby = true;
        self.power.guard = Sixteenths(0);
        self
    }

    // STBY goes low and the guard loads 16 times its value.
    fn end_standby(mut self) -> Core
        ensures { result ≡ standby_ended self }
    {
        self.power.stby = false;
        self.power.guard = Sixteenths::from(self.setup.guardvalue);
        self
    }

    // An event of a source that counts: its bit is set, and standby ends.
    #[tactic(auto, unfolding(crate::specs::Standby::raised))]
    fn raise(mut self, source: Source) -> Core
        ensures { result ≡ raised (bit_of source) self }
    {
        if self.power.stby {
            self.interrupt |= source as u8;
            return self.end_standby();
        }
        self.interrupt |= 16 * (source as u8);
        self
    }
}
