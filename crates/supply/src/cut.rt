// A cut of the supply, and what both panel kinds have after it.
ghost use Rattle.std.specs.Prelude.{◌≡◌, ◌≤◌};
ghost use Rattle.calendar.specs.Clock.{limit, Valid};
ghost use Rattle.timekeeper.specs.Clock.{clock_of};
ghost use Rattle.supply.specs.Return.{registers_returned, match_counts, flags_returned, rtc_returned, core_returned};

use crate::interrupt_for;
use calendar::Span;
use controller::{ALARM_FLAG, Core, Rtc};
use units::{Seconds, Sixteenths};

// The clock's part of the state before the cut, which alone outlasts it, and the seconds without supply.
#[derive(Clone, Copy)]
pub struct Cut {
    pub rtc: Rtc,
    pub seconds: Seconds,
    ghost valid: { Valid (clock_of rtc.registers) },
    ghost within: { seconds.0 ≤ limit },
}

impl Cut {
    // The seconds that the clock passes over.
    fn span(self) -> Span
        ensures start { result.start ≡ clock_of self.rtc.registers }
        ensures seconds { result.seconds ≡ self.seconds }
    {
        Span {
            start: timekeeper::clock_of(self.rtc.registers),
            seconds: self.seconds,
        }
    }

    // The registers after the cut.
    #[tactic(auto, unfolding(crate::specs::Return::registers_returned))]
    fn return_registers(self) -> [u8; 16]
        ensures { result ≡ registers_returned self.seconds.0 self.rtc.registers }
    {
        let registers = self.rtc.registers;
        if registers::is_stopped(registers) {
            return registers;
        }
        timekeeper::with_clock(registers, self.span().end())
    }

    // Whether a match of one of the seconds counts: the oscillator runs and both alarm bits are set.
    #[tactic(auto, unfolding(crate::specs::Return::match_counts))]
    fn match_counts(self) -> bool
        ensures { result ≡ match_counts self.seconds.0 self.rtc.registers }
    {
        let registers = self.rtc.registers;
        if registers::is_stopped(registers) {
            return false;
        }
        if !(registers::has_afe(registers) & registers::has_abe(registers)) {
            return false;
        }
        timekeeper::alarm_of(registers).any_match(self.span())
    }

    // The flags after the cut.
    #[tactic(auto, unfolding(crate::specs::Return::flags_returned))]
    fn return_flags(self) -> u8
        ensures { result ≡ flags_returned self.seconds.0 self.rtc.registers self.rtc.flags }
    {
        if self.match_counts() {
            return self.rtc.flags | ALARM_FLAG;
        }
        self.rtc.flags
    }

    // The clock's part of the state after the cut; the watchdog stops.
    fn return_rtc(self) -> Rtc
        ensures { result ≡ rtc_returned self.seconds.0 self.rtc }
    {
        Rtc {
            registers: self.return_registers(),
            flags: self.return_flags(),
            watchdog: Sixteenths(0),
            ..self.rtc
        }
    }

    // The state that both panel kinds share after the cut: power-up's, but for the clock and b4.
    pub fn return_core(self) -> Core
        ensures { result ≡ core_returned (rtc_returned self.seconds.0 self.rtc) }
    {
        let rtc = self.return_rtc();
        Core {
            rtc,
            interrupt: interrupt_for(rtc.flags),
            ..Core::power_up()
        }
    }
}
