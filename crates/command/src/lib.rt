// Decoding a command: its bytes are a command, or are refused.
// Below, c is the first byte, a the second and b the third, n counts the bytes, and room those of the output.
#![tactic(auto)]

ghost use Rattle.std.specs.Prelude.{◌≡◌};
ghost use Rattle.common.specs.Grounds.{first_ground};
ghost use Rattle.command.specs.Codes.{configures, gives_digits, sets_display, listed};
ghost use Rattle.command.specs.Refusals.{bytes_needed, room_needed, too_short, outside, address_out, protocol_out, digits_out, grounds_by};
ghost use Rattle.command.specs.Decode.{command_by, decoded_of};
ghost use Rattle.common.specs.Refused.{number_of};

use common::Refusal;

// The codes that are one command each. Kept as bytes, and not as an enum: a first byte may be any, two groups take many, and `command/Codes.listed`,
// `command/Refusals.bytes_needed` and `command/Decode.command_by` say of the byte.
const WRITE_DIGITS: u8 = 0x40;

const WRITE_REGISTERS: u8 = 0x50;

const READ_KEYS: u8 = 0x61;

const READ_REMOTE: u8 = 0x62;

const READ_INTERRUPTS: u8 = 0x63;

const READ_REGISTERS: u8 = 0x70;

const SET_HOT_KEYS: u8 = 0xA0;

const STANDBY: u8 = 0xC1;

const RELOAD_GUARD: u8 = 0xC2;

// Kept a plain value, and so with its bytes beside it where it is served, for the data of 40h and 50h: a slice in it has a place in memory, and
// `command/Decode.decoded_of` says of a command its numbers alone.
#[derive(Clone, Copy, Debug, PartialEq, Eq)]
pub enum Command {
    // Configuration bits; protocol and guard value.
    Configure(u8, u8),
    // The same, and the digits.
    ConfigureDigits(u8, u8, u8),
    // The address 10h..14h of the first digit byte; the data are the bytes from 2 on.
    WriteDigits(u8),
    // The address 01h..0Fh of the first register; the data are the bytes from 2 on.
    WriteRegisters(u8),
    ReadKeys,
    ReadRemote,
    ReadInterrupts,
    // The address 00h..0Fh of the first register.
    ReadRegisters(u8),
    // Display on in b4, brightness in b3..b0.
    SetDisplay(u8),
    // The hot-key mask, low byte first.
    SetHotKeys(u8, u8),
    Standby,
    ReloadGuard,
}

// 00xxxxxx: the configuration.
fn configures(c: u8) -> bool
    ensures { result ≡ configures c }
{
    c / 64 == 0
}

// 00x1xxxx: a third byte gives the digits.
fn gives_digits(c: u8) -> bool
    ensures { result ≡ gives_digits c }
{
    (c / 64 == 0) & (c / 16 % 2 == 1)
}

// 100xxxxx: the display.
fn sets_display(c: u8) -> bool
    ensures { result ≡ sets_display c }
{
    c / 32 == 4
}

// Whether the list has this command.
fn is_listed(c: u8) -> bool
    ensures { result ≡ listed c }
{
    configures(c)
        | (c == WRITE_DIGITS)
        | (c == WRITE_REGISTERS)
        | (c == READ_KEYS)
        | (c == READ_REMOTE)
        | (c == READ_INTERRUPTS)
        | (c == READ_REGISTERS)
        | sets_display(c)
        | (c == SET_HOT_KEYS)
        | (c == STANDBY)
        | (c == RELOAD_GUARD)
}

// How many bytes a command has at least: a count, no code.
#[tactic(auto, unfolding(crate::specs::Refusals::bytes_needed))]
fn bytes_needed(c: u8) -> usize
    ensures { result ≡ bytes_needed c }
{
    if gives_digits(c) | (c == WRITE_DIGITS) | (c == WRITE_REGISTERS) | (c == SET_HOT_KEYS) {
        3
    } else if configures(c) | (c == READ_REGISTERS) {
        2
    } else {
        1
    }
}

// How long an output its reply needs: a count, no code.
#[tactic(auto, unfolding(crate::specs::Refusals::room_needed))]
fn room_needed(c: u8) -> usize
    ensures { result ≡ room_needed c }
{
    if c == READ_REMOTE {
        3
    } else if (c == READ_KEYS) | (c == READ_INTERRUPTS) {
        2
    } else {
        0
    }
}

// Whether x is not from lo to hi.
fn is_outside(lo: u8, hi: u8, x: u8) -> bool
    ensures { result ≡ outside lo hi x }
{
    (x < lo) | (hi < x)
}

// A command's first three bytes, 0 where there is none, and how many bytes it has. The 0 is kept: it is `command/Refusals.byte`.
#[derive(Clone, Copy)]
struct Head {
    c: u8,
    a: u8,
    b: u8,
    n: usize,
}

impl Head {
    // Whether the command or the output is too short.
    fn is_too_short(self, room: usize) -> bool
        ensures { result ≡ too_short self.c self.n room }
    {
        (self.n < bytes_needed(self.c)) | (room < room_needed(self.c))
    }

    // Whether the address is out of the command's range.
    fn is_address_out(self) -> bool
        ensures { result ≡ address_out self.c self.a }
    {
        (self.c == WRITE_DIGITS) & is_outside(0x10, 0x14, self.a)
            | (self.c == WRITE_REGISTERS) & is_outside(0x01, 0x0F, self.a)
            | (self.c == READ_REGISTERS) & is_outside(0x00, 0x0F, self.a)
    }

    // Whether the configuration names a protocol, in b6..b4, that is not 0, 2 or 4.
    fn is_protocol_out(self) -> bool
        ensures { result ≡ protocol_out self.c self.a }
    {
        configures(self.c) & !remote::is_protocol(self.a / 16 % 8)
    }

    // Whether the configuration gives other digits than 1 to 5.
    fn is_digits_out(self) -> bool
        ensures { result ≡ digits_out self.c self.b }
    {
        gives_digits(self.c) & is_outside(1, 5, self.b)
    }

    // Refuses by the first ground that holds, in the table's order.
    #[tactic(auto, unfolding(crate::specs::Refusals::grounds_by))]
    fn check(self, standby: bool, room: usize) -> Result<(), Refusal>
        ensures { number_of result ≡ first_ground (grounds_by self.c self.a self.b self.n standby room) }
    {
        if self.n == 0 {
            return Err(Refusal::EmptyCommand);
        }
        if standby {
            return Err(Refusal::InStandby);
        }
        if !is_listed(self.c) {
            return Err(Refusal::UnlistedCommand);
        }
        if self.is_too_short(room) {
            return Err(Refusal::TooShort);
        }
        if self.is_address_out() {
            return Err(Refusal::AddressOut);
        }
        if self.is_protocol_out() {
            return Err(Refusal::ProtocolOut);
        }
        if self.is_digits_out() {
            return Err(Refusal::DigitsOut);
        }
        Ok(())
    }

    // The command that the bytes are, the first of them being a listed one.
    #[tactic(auto, unfolding(crate::specs::Decode::command_by))]
    fn command(self) -> Command
        ensures { result ≡ command_by self.c self.a self.b }
    {
        let Head { c, a, b, .. } = self;
        if gives_digits(c) {
            return Command::ConfigureDigits(c / 32 * 32 + c % 16, a % 128, b);
        }
        if configures(c) {
            return Command::Configure(c, a % 128);
        }
        if sets_display(c) {
            return Command::SetDisplay(c % 32);
        }
        match c {
            WRITE_DIGITS => Command::WriteDigits(a),
            WRITE_REGISTERS => Command::WriteRegisters(a),
            READ_KEYS => Command::ReadKeys,
            READ_REMOTE => Command::ReadRemote,
            READ_INTERRUPTS => Command::ReadInterrupts,
            READ_REGISTERS => Command::ReadRegisters(a),
            SET_HOT_KEYS => Command::SetHotKeys(a, b),
            STANDBY => Command::Standby,
            _ => Command::ReloadGuard,
        }
    }
}

// The command that the bytes are, by STBY's level and the length of the output.
#[tactic(auto, unfolding(crate::specs::Decode::decoded_of))]
pub fn decode(s: &[u8], standby: bool, room: usize) -> Result<Command, Refusal>
    ensures { result ≡ decoded_of s.now standby room }
{
    let head = Head {
        c: common::byte_or(s, 0, 0),
        a: common::byte_or(s, 1, 0),
        b: common::byte_or(s, 2, 0),
        n: s.len(),
    };
    head.check(standby, room)?;
    Ok(head.command())
}
