// Supply return of the first panel kind.
ghost use Rattle.std.specs.Prelude.{◌≡◌};
ghost use Rattle.panel.specs.State.{with_core};
ghost use Rattle.panel.specs.PowerUp.{panel_powered_up};
ghost use Rattle.supply.specs.Return.{rtc_returned, core_returned};

use crate::Cut;
use panel::Panel;

// The panel after a cut: all that is its own is as at power-up.
pub fn return_panel(cut: Cut) -> Panel
    ensures { result ≡ with_core panel_powered_up (core_returned (rtc_returned cut.seconds.0 cut.rtc)) }
{
    Panel {
        core: cut.return_core(),
        ..Panel::power_up()
    }
}
