// The first panel kind, the STLED325: the shared state with a display of five digits, and the commands.
#![tactic(auto)]

ghost use Rattle.std.specs.Prelude.{◌≡◌, length, drop};
ghost use Rattle.output.specs.Output.{answered};
ghost use Rattle.panel.specs.PowerUp.{panel_powered_up};
ghost use Rattle.panel.specs.Display.{digits_set, display_set, digit_byte, digits_written};
ghost use Rattle.panel.specs.Read.{keys_reply, remote_reply, interrupts_reply, output_after};
ghost use Rattle.panel.specs.Execute.{display_executed, served};
ghost use Rattle.panel.specs.State.{on_core};
ghost use Rattle.controller.specs.Tick.{ticked};
ghost use Rattle.controller.specs.Keys.{sampled};
ghost use Rattle.controller.specs.Remote.{keyed};
ghost use Rattle.controller.specs.Pins.{ready_set, wake_up_set};

use command::Command;
use common::Refusal;
use controller::Core;
use display::Display;
use remote::RemoteKey;

#[derive(Clone, Copy)]
pub struct Panel {
    pub core: Core,
    pub display: Display,
}

// The digit byte at address x after data from address a on. Address and bytes are kept apart as in `registers::write`.
fn digit_after(a: usize, bytes: &[u8], x: usize, old: u8) -> u8
    ensures { result ≡ digit_byte a bytes.now x old }
{
    if x < a {
        return old;
    }
    common::byte_or(bytes, x - a, old)
}

// 40h: data go to the digit bytes from address a on.
fn write_digits(mut d: Display, a: u8, bytes: &[u8]) -> Display
    ensures { result ≡ digits_written a bytes.now d }
{
    for i in 0..d.bytes.len() {
        d.bytes[i] = digit_after(a as usize, bytes, 0x10 + i, d.bytes[i]);
    }
    d
}

// The digits in use; if they change the display goes off.
#[tactic(auto, unfolding(crate::specs::Display::digits_set))]
fn set_digits(mut d: Display, n: u8) -> Display
    ensures { result ≡ digits_set n d }
{
    if n == d.digits {
        return d;
    }
    d.digits = n;
    d.control %= 16;
    d
}

// 100xxxxx: display on and brightness.
fn set_display(mut d: Display, x: u8) -> Display
    ensures { result ≡ display_set x d }
{
    d.control = x;
    d
}

// The display after an accepted command, whose bytes are s, kept apart from it: see `command::Command`.
fn execute_display(d: Display, k: Command, s: &[u8]) -> Display
    ensures { result ≡ display_executed d k s.now }
{
    match k {
        Command::ConfigureDigits(_, _, n) => set_digits(d, n),
        Command::WriteDigits(a) => write_digits(d, a, effects::data_of(s)),
        Command::SetDisplay(x) => set_display(d, x),
        _ => d,
    }
}

// 61h: the key store, low byte first.
fn keys_reply(c: Core) -> [u8; 2]
    ensures { result ≡ keys_reply c }
{
    let [low, high, ..] = c.keys.store.to_le_bytes();
    [low, high]
}

// 62h: the remote key.
fn remote_reply(c: Core) -> [u8; 3]
    ensures { result ≡ remote_reply c }
{
    [c.remote.fresh, c.remote.address, c.remote.command]
}

// 63h: the interrupt byte and the flags.
fn interrupts_reply(c: Core) -> [u8; 2]
    ensures { result ≡ interrupts_reply c }
{
    [c.interrupt, c.rtc.flags]
}

impl Panel {
    // The panel at power-up.
    pub fn power_up() -> Panel
        ensures { result ≡ panel_powered_up }
    {
        Panel {
            core: Core::power_up(),
            display: Display {
                digits: 5,
                control: 0,
                bytes: [0; 5],
            },
        }
    }

    // An event that both panel kinds share. Each has a method of its own below, kept for the promise that it states.
    fn on_core<F: FnOnce(Core) -> Core>(mut self, event: F) -> Panel
        requires { F.IsAlwaysCallable event }
        ensures core { F.post event self.core result.core }
        ensures display { result.display ≡ self.display }
    {
        self.core = event(self.core);
        self
    }

    // A tick, a sixteenth of a second.
    pub fn tick(self) -> Panel
        ensures { result ≡ on_core ticked self }
    {
        self.on_core(Core::tick)
    }

    // A key sample.
    pub fn sample_keys(self, sample: u32) -> Panel
        ensures { result ≡ on_core (λ c. sampled c sample) self }
    {
        self.on_core(|core: Core| core.sample_keys(sample))
    }

    // A remote key.
    pub fn receive_key(self, key: RemoteKey) -> Panel
        ensures { result ≡ on_core (λ c. keyed c key.address key.command) self }
    {
        self.on_core(|core: Core| core.receive_key(key))
    }

    // The READY pin takes a level.
    pub fn set_ready(self, level: bool) -> Panel
        ensures { result ≡ on_core (λ c. ready_set c level) self }
    {
        self.on_core(|core: Core| core.set_ready(level))
    }

    // The WAKE_UP pin takes a level.
    pub fn set_wake_up(self, level: bool) -> Panel
        ensures { result ≡ on_core (λ c. wake_up_set c level) self }
    {
        self.on_core(|core: Core| core.set_wake_up(level))
    }

    // The panel after an accepted command, whose bytes are s; a write that leaves no valid calendar is refused.
    pub fn execute(self, k: Command, s: &[u8]) -> Result<Panel, Refusal>
        ensures { result ≡ served self k s.now }
    {
        let core = effects::execute(self.core, k, s)?;
        let display = execute_display(self.display, k, s);
        Ok(Panel { core, display })
    }

    // Writes the reply of a reading command to the output; other commands leave it as it was.
    pub fn reply(self, k: Command, out: &mut [u8])
        ensures { out.new ≡ output_after self.core k out.old }
    {
        match k {
            Command::ReadKeys => output::answer(out, &keys_reply(self.core)),
            Command::ReadRemote => output::answer(out, &remote_reply(self.core)),
            Command::ReadInterrupts => output::answer(out, &interrupts_reply(self.core)),
            Command::ReadRegisters(a) => {
                let registers = self.core.rtc.registers;
                output::answer(out, &registers[usize::from(a).min(registers.len())..]);
            }
            _ => {}
        }
    }
}
