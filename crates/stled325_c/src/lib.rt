// The calls exported to C: each is the library's call of its name, with the same promise, and returns the number of its answer.
// Kept as ten functions: C calls each by its name.
#![tactic(auto)]

ghost use Rattle.std.specs.Prelude.{◌≡◌, []};
ghost use Rattle.stled325.specs.Outcome.{outcome};
ghost use Rattle.stled325.specs.Calls.{power_up_call, tick_call, sample_call, ready_call, wake_up_call, frame_call, supply_return_call, show_call, lines_call};
ghost use Rattle.stled325.specs.Command.{command_call};

#[unsafe(no_mangle)]
pub extern "C" fn stled325_power_up(image: &mut [u8]) -> u32
    ensures { outcome result image.new [] ≡ power_up_call image.old }
{
    common::number(stled325::stled325_power_up(image))
}

#[unsafe(no_mangle)]
pub extern "C" fn stled325_tick(image: &mut [u8]) -> u32
    ensures { outcome result image.new [] ≡ tick_call image.old }
{
    common::number(stled325::stled325_tick(image))
}

#[unsafe(no_mangle)]
pub extern "C" fn stled325_key_sample(image: &mut [u8], sample: u16) -> u32
    ensures { outcome result image.new [] ≡ sample_call image.old sample }
{
    common::number(stled325::stled325_key_sample(image, sample))
}

#[unsafe(no_mangle)]
pub extern "C" fn stled325_ready(image: &mut [u8], level: u32) -> u32
    ensures { outcome result image.new [] ≡ ready_call image.old level }
{
    common::number(stled325::stled325_ready(image, level))
}

#[unsafe(no_mangle)]
pub extern "C" fn stled325_wake_up(image: &mut [u8], level: u32) -> u32
    ensures { outcome result image.new [] ≡ wake_up_call image.old level }
{
    common::number(stled325::stled325_wake_up(image, level))
}

#[unsafe(no_mangle)]
pub extern "C" fn stled325_remote_frame(image: &mut [u8], frame: u32) -> u32
    ensures { outcome result image.new [] ≡ frame_call image.old frame }
{
    common::number(stled325::stled325_remote_frame(image, frame))
}

#[unsafe(no_mangle)]
pub extern "C" fn stled325_command(image: &mut [u8], bytes: &[u8], out: &mut [u8]) -> u32
    ensures { outcome result image.new out.new ≡ command_call image.old bytes.now out.old }
{
    common::number(stled325::stled325_command(image, bytes, out))
}

#[unsafe(no_mangle)]
pub extern "C" fn stled325_supply_return(image: &mut [u8], seconds: u32) -> u32
    ensures { outcome result image.new [] ≡ supply_return_call image.old seconds }
{
    common::number(stled325::stled325_supply_return(image, seconds))
}

#[unsafe(no_mangle)]
pub extern "C" fn stled325_show(image: &[u8], digits: &mut [u8]) -> u32
    ensures { outcome result image.now digits.new ≡ show_call image.now digits.old }
{
    common::number(stled325::stled325_show(image, digits))
}

#[unsafe(no_mangle)]
pub extern "C" fn stled325_lines(image: &[u8], lines: &mut [u8]) -> u32
    ensures { outcome result image.now lines.new ≡ lines_call image.now lines.old }
{
    common::number(stled325::stled325_lines(image, lines))
}
