// Remote frames, NEC and RC-5: a number of 32 bits is a key, or none.
#![tactic(auto)]

ghost use Rattle.std.specs.Prelude.{◌≡◌};
ghost use Rattle.std.specs.Result.{result_ok};
ghost use Rattle.common.specs.Refused.{number_of};
ghost use Rattle.remote.specs.Frame.{is_protocol, addressed, complements, nec_key, rc5_key, sent_by, key_of, refusal_of};

use common::Refusal;

// The protocols of which a frame can be a key, as b6..b4 of image byte 21 hold them.
const RC5: u8 = 2;

const NEC: u8 = 4;

// Whether there is a protocol of this number; 0 is none.
pub fn is_protocol(p: u8) -> bool
    ensures { result ≡ is_protocol p }
{
    (p == 0) | (p == RC5) | (p == NEC)
}

// A key of the remote control: device address and command.
#[derive(Clone, Copy, Debug, PartialEq, Eq)]
pub struct RemoteKey {
    pub address: u8,
    pub command: u8,
}

// Whether keys of this device address are for the panel.
fn is_addressed(address: u8) -> bool
    ensures { result ≡ addressed address }
{
    address == 0
}

// Whether one byte is the complement of the other.
fn are_complements(b: u8, c: u8) -> bool
    ensures { result ≡ complements b c }
{
    u16::from(b) + u16::from(c) == 255
}

// NEC: address, its complement, command, its complement, the first byte lowest.
#[tactic(auto, unfolding(crate::specs::Frame::nec_key))]
fn nec_key(frame: u32) -> Option<RemoteKey>
    ensures { result ≡ nec_key frame }
{
    let [address, inverted_address, command, inverted_command] = frame.to_le_bytes();
    if are_complements(address, inverted_address) & are_complements(command, inverted_command) {
        return Some(RemoteKey { address, command });
    }
    None
}

// RC-5: two start bits, toggle, 5 bits of address, 6 of command, from bit 13 down.
#[tactic(auto, unfolding(crate::specs::Frame::rc5_key))]
fn rc5_key(frame: u32) -> Option<RemoteKey>
    ensures { result ≡ rc5_key frame }
{
    let address = frame / 64 % 32;
    let command = frame % 64;
    if frame / 4_096 == 3 {
        return Some(RemoteKey {
            address: address as u8,
            command: command as u8,
        });
    }
    None
}

// The key that a frame of this protocol sends, for any device. The protocol is kept as a number: an image may hold any below 8 (`controller::Setup`).
#[tactic(auto, unfolding(crate::specs::Frame::sent_by))]
fn sent_by(protocol: u8, frame: u32) -> Option<RemoteKey>
    ensures { result ≡ sent_by protocol frame }
{
    match protocol {
        NEC => nec_key(frame),
        RC5 => rc5_key(frame),
        _ => None,
    }
}

// The key that a frame of this protocol sends to the panel.
#[tactic(auto, unfolding(crate::specs::Frame::key_of))]
pub fn key(protocol: u8, frame: u32) -> Option<RemoteKey>
    ensures { result ≡ key_of protocol frame }
{
    sent_by(protocol, frame).filter(|key| is_addressed(key.address))
}

// The key, or why the call of a frame that is none is refused.
#[tactic(auto, using(crate::proofs::Frames::refused_as))]
pub fn accept(received: Option<RemoteKey>) -> Result<RemoteKey, Refusal>
    ensures key { received ≡ result_ok result }
    ensures number { number_of result ≡ refusal_of received }
{
    received.ok_or(Refusal::NoKey)
}
