// A tick in its three steps.
ghost use Rattle.std.specs.Prelude.{◌≡◌};
ghost use Rattle.controller.specs.Tick.{second_passed, clock_ticked, watchdog_ticked, guard_ticked, ticked};

use crate::{ALARM_FLAG, Core, GUARD_STANDBY, Source, WATCHDOG_FLAG};
use units::Sixteenths;

impl Core {
    // The second passes; with AFE set a match raises the alarm flag and an RTC event.
    #[tactic(auto, unfolding(crate::specs::Tick::second_passed))]
    fn pass_second(mut self) -> Core
        ensures { result ≡ second_passed self }
    {
        let registers = self.rtc.registers;
        let clock = timekeeper::clock_of(registers).next_second();
        self.rtc.registers = timekeeper::with_clock(registers, clock);
        self.rtc.sixteenths = Sixteenths(0);
        if registers::has_afe(registers) & timekeeper::alarm_of(registers).match_second(clock) {
            self.rtc.flags |= ALARM_FLAG;
            return self.raise(Source::Rtc);
        }
        self
    }

    // The clock's part of a tick.
    #[tactic(auto, unfolding(crate::specs::Tick::clock_ticked))]
    fn tick_clock(mut self) -> Core
        ensures { result ≡ clock_ticked self }
    {
        if registers::is_stopped(self.rtc.registers) {
            return self;
        }
        if self.rtc.sixteenths.fills_with_next() {
            return self.pass_second();
        }
        self.rtc.sixteenths.0 += 1;
        self
    }

    // The watchdog's part of a tick.
    #[tactic(auto, unfolding(crate::specs::Tick::watchdog_ticked))]
    fn tick_watchdog(mut self) -> Core
        ensures { result ≡ watchdog_ticked self }
    {
        let left = self.rtc.watchdog.0;
        if (left == 0) | registers::is_stopped(self.rtc.registers) {
            return self;
        }
        self.rtc.watchdog.0 -= 1;
        if (left == 1) & registers::has_wdfen(self.rtc.registers) {
            self.rtc.flags |= WATCHDOG_FLAG;
            return self.raise(Source::Rtc);
        }
        self
    }

    // The guard's part of a tick.
    #[tactic(auto, unfolding(crate::specs::Tick::guard_ticked))]
    fn tick_guard(mut self) -> Core
        ensures { result ≡ guard_ticked self }
    {
        let left = self.power.guard.0;
        if left == 0 {
            return self;
        }
        if (left == 1) & common::bit(self.setup.configuration, GUARD_STANDBY) {
            return self.begin_standby();
        }
        self.power.guard.0 -= 1;
        self
    }

    // A tick, a sixteenth of a second: the clock, then the watchdog, then the guard.
    #[tactic(auto, unfolding(crate::specs::Tick::ticked))]
    pub fn tick(self) -> Core
        ensures { result ≡ ticked self }
    {
        self.tick_clock().tick_watchdog().tick_guard()
    }
}
