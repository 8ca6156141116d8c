// The image of 64 bytes: taken in and written out by value, the state that it holds, and the image of a state.
#![tactic(auto)]

ghost use Rattle.std.specs.Prelude.{◌≡◌, ◌<◌, length};
ghost use Rattle.image.specs.Layout.{image_len, word_at, word_put};
ghost use Rattle.image.specs.Image.{registers_in, rtc_in, power_in, setup_in, keys_in, remote_in, core_in, display_in, decoded, pins_byte, encoded};

use controller::{Core, Keys, Power, Remote, Rtc, Setup};
use display::Display;
use panel::Panel;
use units::{Seconds, Sixteenths};

// How many bytes an image has.
pub const IMAGE_LEN: usize = 64;

// Where things stand in the image.
const SIXTEENTHS: usize = 16;

pub const FLAGS: usize = 17;

const INTERRUPT: usize = 18;

pub const PINS: usize = 19;

pub const CONFIGURATION: usize = 20;

pub const SETUP: usize = 21;

const GUARD_LEFT: usize = 22;

const WATCHDOG_LEFT: usize = 24;

const HOT_KEYS: usize = 26;

const LAST_SAMPLE: usize = 28;

const ACCEPTED_KEYS: usize = 30;

const KEY_STORE: usize = 32;

const REMOTE_FRESH: usize = 34;

const REMOTE_ADDRESS: usize = 35;

const REMOTE_COMMAND: usize = 36;

const DIGITS: usize = 37;

pub const DISPLAY_CONTROL: usize = 38;

const DIGIT_BYTES: usize = 39;

pub const UNUSED: usize = 44;

// Bits of the pins' byte.
const READY: u8 = 1;

const WAKE_UP: u8 = 2;

const STBY: u8 = 4;

// The number in the two bytes from a place on, low byte first.
fn word_at(image: [u8; 64], at: usize) -> u16
    requires { at < 63 }
    ensures { result ≡ word_at image at }
{
    u16::from_le_bytes([image[at], image[at + 1]])
}

fn decode_keys(image: [u8; 64]) -> Keys
    ensures { result ≡ keys_in image }
{
    Keys {
        mask: u32::from(word_at(image, HOT_KEYS)),
        sample: u32::from(word_at(image, LAST_SAMPLE)),
        accepted: u32::from(word_at(image, ACCEPTED_KEYS)),
        store: u32::from(word_at(image, KEY_STORE)),
    }
}

fn decode_power(image: [u8; 64]) -> Power
    ensures { result ≡ power_in image }
{
    let pins = image[PINS];
    Power {
        ready: common::bit(pins, READY),
        wakeup: common::bit(pins, WAKE_UP),
        stby: common::bit(pins, STBY),
        guard: Sixteenths(u64::from(word_at(image, GUARD_LEFT))),
    }
}

fn decode_rtc(image: [u8; 64]) -> Rtc
    ensures { result ≡ rtc_in image }
{
    Rtc {
        registers: load_registers(&image),
        sixteenths: Sixteenths(u64::from(image[SIXTEENTHS])),
        flags: image[FLAGS],
        watchdog: Sixteenths(u64::from(word_at(image, WATCHDOG_LEFT))),
    }
}

fn decode_setup(image: [u8; 64]) -> Setup
    ensures { result ≡ setup_in image }
{
    Setup {
        configuration: image[CONFIGURATION],
        protocol: image[SETUP] / 16 % 8,
        guardvalue: Seconds(u32::from(image[SETUP] % 16)),
    }
}

fn decode_remote(image: [u8; 64]) -> Remote
    ensures { result ≡ remote_in image }
{
    Remote {
        fresh: image[REMOTE_FRESH],
        address: image[REMOTE_ADDRESS],
        command: image[REMOTE_COMMAND],
    }
}

fn decode_core(image: [u8; 64]) -> Core
    ensures { result ≡ core_in image }
{
    Core {
        rtc: decode_rtc(image),
        power: decode_power(image),
        setup: decode_setup(image),
        keys: decode_keys(image),
        remote: decode_remote(image),
        interrupt: image[INTERRUPT],
    }
}

fn decode_display(image: [u8; 64]) -> Display
    ensures { result ≡ display_in image }
{
    let mut bytes = [0u8; 5];
    bytes.copy_from_slice(&image[DIGIT_BYTES..UNUSED]);
    Display {
        digits: image[DIGITS],
        control: image[DISPLAY_CONTROL],
        bytes,
    }
}

// The state in an image.
pub fn decode(image: [u8; 64]) -> Panel
    ensures { result ≡ decoded image }
{
    Panel {
        core: decode_core(image),
        display: decode_display(image),
    }
}

// b0 READY, b1 WAKE_UP, b2 STBY.
fn encode_pins(power: Power) -> u8
    ensures { result ≡ pins_byte power }
{
    common::weight(power.ready, READY)
        + common::weight(power.wakeup, WAKE_UP)
        + common::weight(power.stby, STBY)
}

// Writes a number of two bytes from a place on, low byte first.
fn write_word(image: &mut [u8; 64], at: usize, x: u64)
    requires { at < 63 }
    ensures { image.new ≡ word_put image.old at x }
{
    let [low, high, ..] = x.to_le_bytes();
    image[at] = low;
    image[at + 1] = high;
}

// The image of a state. The byte of the sixteenths is kept by hand: `to_le_bytes` would give eight.
pub fn encode(p: Panel) -> [u8; 64]
    ensures { result ≡ encoded p }
{
    let core = p.core;
    let mut image = [0u8; 64];
    image[..SIXTEENTHS].copy_from_slice(&core.rtc.registers);
    image[SIXTEENTHS] = (core.rtc.sixteenths.0 % 256) as u8;
    image[FLAGS] = core.rtc.flags;
    image[INTERRUPT] = core.interrupt;
    image[PINS] = encode_pins(core.power);
    image[CONFIGURATION] = core.setup.configuration;
    image[SETUP] = 16 * (core.setup.protocol % 8) + (core.setup.guardvalue.0 % 16) as u8;
    write_word(&mut image, GUARD_LEFT, core.power.guard.0);
    write_word(&mut image, WATCHDOG_LEFT, core.rtc.watchdog.0);
    write_word(&mut image, HOT_KEYS, u64::from(core.keys.mask));
    write_word(&mut image, LAST_SAMPLE, u64::from(core.keys.sample));
    write_word(&mut image, ACCEPTED_KEYS, u64::from(core.keys.accepted));
    write_word(&mut image, KEY_STORE, u64::from(core.keys.store));
    image[REMOTE_FRESH] = core.remote.fresh;
    image[REMOTE_ADDRESS] = core.remote.address;
    image[REMOTE_COMMAND] = core.remote.command;
    image[DIGITS] = p.display.digits;
    image[DISPLAY_CONTROL] = p.display.control;
    image[DIGIT_BYTES..UNUSED].copy_from_slice(&p.display.bytes);
    image
}

// The image's bytes by value; the compiler copies 64 bytes faster than as many as there are. Kept as a slice of so many bytes, as in `save` and
// `events`: of a slice lent to be changed, what a refused conversion to an array leaves is not proved, and here no conversion could be refused.
pub fn load(image: &[u8]) -> [u8; 64]
    requires { length image.now ≡ image_len }
    ensures { result ≡ image.now }
{
    let mut a = [0u8; 64];
    a.copy_from_slice(&image[0..64]);
    a
}

// The registers of an image that is lent.
pub fn load_registers(image: &[u8; 64]) -> [u8; 16]
    ensures { result ≡ registers_in image.now }
{
    let mut registers = [0u8; 16];
    registers.copy_from_slice(&image[..SIXTEENTHS]);
    registers
}

// The bytes written to the image.
pub fn save(image: &mut [u8], a: [u8; 64])
    requires { length image.old ≡ image_len }
    ensures { image.new ≡ a }
{
    image.copy_from_slice(&a);
}
