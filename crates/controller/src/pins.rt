// The pins READY and WAKE_UP.
ghost use Rattle.std.specs.Prelude.{◌≡◌};
ghost use Rattle.controller.specs.Pins.{ready_set, wake_up_set};

use crate::{Core, Source, WAKE_UP_COUNTS};
use units::Sixteenths;

impl Core {
    // The READY pin takes a level: rising stops the guard, falling begins standby.
    #[tactic(auto, unfolding(crate::specs::Pins::ready_set))]
    pub fn set_ready(mut self, level: bool) -> Core
        ensures { result ≡ ready_set self level }
    {
        if level == self.power.ready {
            return self;
        }
        self.power.ready = level;
        if level {
            self.power.guard = Sixteenths(0);
            return self;
        }
        if self.power.stby {
            return self;
        }
        self.begin_standby()
    }

    // The WAKE_UP pin takes a level: a rise counts only with configuration b5.
    #[tactic(auto, unfolding(crate::specs::Pins::wake_up_set))]
    pub fn set_wake_up(mut self, level: bool) -> Core
        ensures { result ≡ wake_up_set self level }
    {
        if level == self.power.wakeup {
            return self;
        }
        self.power.wakeup = level;
        if level & common::bit(self.setup.configuration, WAKE_UP_COUNTS) {
            return self.raise(Source::WakeUp);
        }
        self
    }
}
