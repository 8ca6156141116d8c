// The calls over a lent image of 64 bytes, which stled325_c exports: each checks it, and leaves what its event leaves. A refused call leaves image and
// output as they were.
// Kept as ten functions with the parameters that C gives, one for each exported call.
#![tactic(auto)]

ghost use Rattle.std.specs.Prelude.{◌≡◌, []};
ghost use Rattle.common.specs.Refused.{number_of};
ghost use Rattle.stled325.specs.Outcome.{outcome};
ghost use Rattle.stled325.specs.Calls.{power_up_call, tick_call, sample_call, ready_call, wake_up_call, frame_call, supply_return_call, show_call, lines_call};
ghost use Rattle.stled325.specs.Command.{command_call};

use common::Refusal;
use panel::Panel;
use supply::Cut;
use units::Seconds;

// How many bytes show and lines write.
const DIGITS_LEN: usize = 5;

const LINES_LEN: usize = 1;

#[tactic(auto, using(validity::proofs::Laws::valid_length), unfolding(crate::specs::Outcome::decided))]
pub fn stled325_power_up(image: &mut [u8]) -> Result<(), Refusal>
    ensures { outcome (number_of result) image.new [] ≡ power_up_call image.old }
{
    if image.len() != image::IMAGE_LEN {
        return Err(Refusal::InvalidImage);
    }
    events::store(image, Panel::power_up());
    Ok(())
}

#[tactic(auto, using(validity::proofs::Laws::valid_length), unfolding(crate::specs::Outcome::decided))]
pub fn stled325_tick(image: &mut [u8]) -> Result<(), Refusal>
    ensures { outcome (number_of result) image.new [] ≡ tick_call image.old }
{
    events::update(image, |panel| panel.tick())
}

#[tactic(auto, using(validity::proofs::Laws::valid_length), unfolding(crate::specs::Outcome::decided))]
pub fn stled325_key_sample(image: &mut [u8], sample: u16) -> Result<(), Refusal>
    ensures { outcome (number_of result) image.new [] ≡ sample_call image.old sample }
{
    events::update(image, |panel| panel.sample_keys(sample as u32))
}

#[tactic(auto, using(validity::proofs::Laws::valid_length), unfolding(crate::specs::Outcome::decided))]
pub fn stled325_ready(image: &mut [u8], level: u32) -> Result<(), Refusal>
    ensures { outcome (number_of result) image.new [] ≡ ready_call image.old level }
{
    events::update(image, |panel| panel.set_ready(level != 0))
}

#[tactic(auto, using(validity::proofs::Laws::valid_length), unfolding(crate::specs::Outcome::decided))]
pub fn stled325_wake_up(image: &mut [u8], level: u32) -> Result<(), Refusal>
    ensures { outcome (number_of result) image.new [] ≡ wake_up_call image.old level }
{
    events::update(image, |panel| panel.set_wake_up(level != 0))
}

#[tactic(auto, using(validity::proofs::Laws::valid_length, crate::proofs::Calls::frame_done), unfolding(crate::specs::Outcome::decided))]
pub fn stled325_remote_frame(image: &mut [u8], frame: u32) -> Result<(), Refusal>
    ensures { outcome (number_of result) image.new [] ≡ frame_call image.old frame }
{
    let panel = validity::read(image)?;
    let received = remote::key(panel.core.setup.protocol, frame);
    let key = remote::accept(received)?;
    events::store(image, panel.receive_key(key));
    Ok(())
}

#[tactic(auto, using(validity::proofs::Laws::valid_length), unfolding(crate::specs::Outcome::decided))]
pub fn stled325_command(image: &mut [u8], bytes: &[u8], out: &mut [u8]) -> Result<(), Refusal>
    ensures { outcome (number_of result) image.new out.new ≡ command_call image.old bytes.now out.old }
{
    let panel = validity::read(image)?;
    // Kept as `let .. else`, which docs/DECISIONS.md, "Named forms", has for this place.
    let decoded = command::decode(bytes, panel.core.power.stby, out.len());
    let Ok(command) = decoded else {
        return decoded.and(Ok(()));
    };
    let next = panel.execute(command, bytes)?;
    panel.reply(command, out);
    events::store(image, next);
    Ok(())
}

#[tactic(auto, using(validity::proofs::Laws::valid_length, crate::proofs::Calls::return_done, properties::proofs::SoundParts::valid_clock_of), unfolding(crate::specs::Outcome::decided))]
pub fn stled325_supply_return(image: &mut [u8], seconds: u32) -> Result<(), Refusal>
    ensures { outcome (number_of result) image.new [] ≡ supply_return_call image.old seconds }
{
    let panel = validity::read(image)?;
    if seconds > calendar::LIMIT {
        return Err(Refusal::LongCut);
    }
    let cut = Cut {
        rtc: panel.core.rtc,
        seconds: Seconds(seconds),
    };
    events::store(image, supply::first_kind::return_panel(cut));
    Ok(())
}

#[tactic(auto, using(crate::proofs::Calls::show_done, crate::proofs::Calls::view_refused), unfolding(crate::specs::Outcome::decided))]
pub fn stled325_show(image: &[u8], digits: &mut [u8]) -> Result<(), Refusal>
    ensures { outcome (number_of result) image.now digits.new ≡ show_call image.now digits.old }
{
    let panel = validity::read(image)?;
    if digits.len() != DIGITS_LEN {
        return Err(Refusal::BufferLength);
    }
    digits.copy_from_slice(&events::show(panel));
    Ok(())
}

#[tactic(auto, using(crate::proofs::Calls::lines_done), unfolding(crate::specs::Outcome::decided))]
pub fn stled325_lines(image: &[u8], lines: &mut [u8]) -> Result<(), Refusal>
    ensures { outcome (number_of result) image.now lines.new ≡ lines_call image.now lines.old }
{
    let panel = validity::read(image)?;
    if lines.len() != LINES_LEN {
        return Err(Refusal::BufferLength);
    }
    let power = panel.core.power;
    lines[0] = display::lines(power.ready, power.stby, panel.core.interrupt);
    Ok(())
}
