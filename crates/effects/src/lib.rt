// What commands make of the state that both panel kinds share.
#![tactic(auto)]

ghost use Rattle.std.specs.Prelude.{◌≡◌};
ghost use Rattle.effects.specs.Configure.{configured, mask_set, guard_reloaded};
ghost use Rattle.effects.specs.Write.{touched, calendar_touched, registers_set, registers_answer};
ghost use Rattle.effects.specs.Clear.{store_cleared, remote_cleared, interrupts_cleared};
ghost use Rattle.effects.specs.Execute.{data_of, command_answer};

use command::Command;
use common::Refusal;
use controller::{Core, Remote, Setup};
use registers::{DATE, HOURS, MINUTES, MONTH, SECONDS, WATCHDOG, WEEKDAY, YEAR};
use units::{Seconds, Sixteenths};

// Whether one of n data bytes from address a on goes to address x. Kept as two numbers, and not as the range a..a + n, whose end may be too large.
pub fn touches(a: usize, n: usize, x: usize) -> bool
    ensures { result ≡ touched a n x }
{
    a <= x && x - a < n
}

// Whether one of them goes to a calendar register 01h..07h.
fn touches_calendar(a: usize, n: usize) -> bool
    ensures { result ≡ calendar_touched a n }
{
    touches(a, n, SECONDS)
        | touches(a, n, MINUTES)
        | touches(a, n, HOURS)
        | touches(a, n, WEEKDAY)
        | touches(a, n, DATE)
        | touches(a, n, MONTH)
        | touches(a, n, YEAR)
}

// 00 group: the setup is set and the guard loads 16 times its value.
#[tactic(auto, unfolding(crate::specs::Configure::configured))]
fn configure(mut c: Core, configuration: u8, b: u8) -> Core
    ensures { result ≡ configured configuration b c }
{
    let value = Seconds((b % 16) as u32);
    c.setup = Setup {
        configuration,
        protocol: b / 16,
        guardvalue: value,
    };
    c.power.guard = Sixteenths::from(value);
    c
}

// C2h: a running guard loads again.
#[tactic(auto, unfolding(crate::specs::Configure::guard_reloaded))]
fn reload_guard(mut c: Core) -> Core
    ensures { result ≡ guard_reloaded c }
{
    if c.power.guard.0 != 0 {
        c.power.guard = Sixteenths::from(c.setup.guardvalue);
    }
    c
}

// 61h clears the key store.
fn clear_store(mut c: Core) -> Core
    ensures { result ≡ store_cleared c }
{
    c.keys.store = 0;
    c
}

// 62h clears the remote key.
fn clear_remote(mut c: Core) -> Core
    ensures { result ≡ remote_cleared c }
{
    c.remote = Remote {
        fresh: 0,
        address: 0,
        command: 0,
    };
    c
}

// 63h clears the interrupt byte and the flags.
fn clear_interrupts(mut c: Core) -> Core
    ensures { result ≡ interrupts_cleared c }
{
    c.rtc.flags = 0;
    c.interrupt = 0;
    c
}

// A0h: the hot-key mask.
fn set_mask(mut c: Core, low: u8, high: u8) -> Core
    ensures { result ≡ mask_set low high c }
{
    c.keys.mask = u32::from(u16::from_le_bytes([low, high]));
    c
}

// The state with written registers, where n data bytes went in from address a on.
fn set_registers(mut c: Core, a: usize, n: usize, registers: [u8; 16]) -> Core
    ensures { result ≡ registers_set a n registers c }
{
    c.rtc.registers = registers;
    if touches_calendar(a, n) {
        c.rtc.sixteenths = Sixteenths(0);
    }
    if touches(a, n, WATCHDOG) {
        c.rtc.watchdog = registers::watchdog_load(registers[WATCHDOG]);
    }
    c
}

// 50h: data go to the registers from address a on, all or nothing. Address and bytes are kept apart as in `registers::write`.
#[tactic(auto, unfolding(crate::specs::Write::registers_answer, crate::specs::Write::registers_written, timekeeper::specs::Commit::committed))]
fn write_registers(c: Core, a: usize, bytes: &[u8]) -> Result<Core, Refusal>
    ensures { result ≡ registers_answer a bytes.now c }
{
    let registers = timekeeper::commit(c.rtc.registers, a, bytes)?;
    Ok(set_registers(c, a, bytes.len(), registers))
}

// The data of 40h and 50h: the bytes behind the command byte and the address.
pub fn data_of(s: &[u8]) -> &[u8]
    ensures { result.now ≡ data_of s.now }
{
    &s[s.len().min(2)..]
}

// The state after an accepted command, whose bytes are s; a write that leaves no valid calendar is refused. Command and bytes
// are kept apart: see `command::Command`.
#[tactic(auto, unfolding(crate::specs::Write::registers_answer))]
pub fn execute(c: Core, k: Command, s: &[u8]) -> Result<Core, Refusal>
    ensures { result ≡ command_answer c k s.now }
{
    match k {
        Command::Configure(configuration, b) => Ok(configure(c, configuration, b)),
        Command::ConfigureDigits(configuration, b, _) => Ok(configure(c, configuration, b)),
        Command::WriteRegisters(a) => write_registers(c, a as usize, data_of(s)),
        Command::ReadKeys => Ok(clear_store(c)),
        Command::ReadRemote => Ok(clear_remote(c)),
        Command::ReadInterrupts => Ok(clear_interrupts(c)),
        Command::SetHotKeys(low, high) => Ok(set_mask(c, low, high)),
        Command::Standby => Ok(c.begin_standby()),
        Command::ReloadGuard => Ok(reload_guard(c)),
        _ => Ok(c),
    }
}
