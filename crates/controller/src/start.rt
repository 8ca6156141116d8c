// The state that power-up writes.
ghost use Rattle.std.specs.Prelude.{◌≡◌};
ghost use Rattle.controller.specs.PowerUp.{powered_up};

use crate::{Core, Keys, Power, Remote, Rtc, Setup};
use units::{Seconds, Sixteenths};

impl Core {
    // The state at power-up.
    pub fn power_up() -> Core
        ensures { result ≡ powered_up }
    {
        let guardvalue = Seconds(10);
        Core {
            rtc: Rtc {
                registers: [0, 0, 0, 0, 7, 1, 1, 0, 0, 0, 0, 0, 0, 0, 0, 0],
                sixteenths: Sixteenths(0),
                flags: 0,
                watchdog: Sixteenths(0),
            },
            power: Power {
                ready: false,
                wakeup: false,
                stby: false,
                guard: Sixteenths::from(guardvalue),
            },
            setup: Setup {
                configuration: 1,
                protocol: 0,
                guardvalue,
            },
            keys: Keys {
                mask: 0,
                sample: 0,
                accepted: 0,
                store: 0,
            },
            remote: Remote {
                fresh: 0,
                address: 0,
                command: 0,
            },
            interrupt: 0,
        }
    }
}
