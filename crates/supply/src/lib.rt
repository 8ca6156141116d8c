// Supply return: the state at power-up, but for the clock, which moved on over the cut. Here is what both panel kinds share; a module for each
// kind puts its panel around it.
#![tactic(auto)]

ghost use Rattle.std.specs.Prelude.{◌≡◌};
ghost use Rattle.supply.specs.Return.{interrupt_for};

mod cut;
pub mod first_kind;

use controller::ALARM_FLAG;
pub use cut::Cut;

// The bit of the interrupt byte that an RTC event sets with STBY low.
const B4: u8 = 16;

// The interrupt byte: b4 exactly if the alarm flag is up.
fn interrupt_for(flags: u8) -> u8
    ensures { result ≡ interrupt_for flags }
{
    common::weight(common::bit(flags, ALARM_FLAG), B4)
}
