// The calls of the worked examples as their lines write them: a word, which is known by its first letter, and its arguments, up to >.
// The image, which a call changes, and the line, which it reads, are kept as parameters: a struct of the two would hold a loan that each clause undoes.
#![tactic(auto)]

ghost use Rattle.std.specs.Prelude.{◌≡◌, ◌==◌, [], is_ok};
ghost use Rattle.common.specs.Refused.{number_of};
ghost use Rattle.stled325.specs.Outcome.{outcome};
ghost use Rattle.script.specs.Script.{ticks_made, command_made, event_made, event_read, made};
ghost use Rattle.script.specs.Failure.{result_number};

use common::Refusal;
use notation::Part;
use stled325::{
    stled325_command, stled325_key_sample, stled325_lines, stled325_power_up, stled325_ready,
    stled325_remote_frame, stled325_show, stled325_supply_return, stled325_tick, stled325_wake_up,
};

// Why the call of a line failed. Kept an enum: `Option<Refusal>` would not say what `None` is.
#[derive(Clone, Copy, Debug, PartialEq, Eq)]
pub enum Failure {
    // The line writes no call.
    NoCall,
    // The call refused.
    Refused(Refusal),
}

// The number that a line writes of its call: 0, that of a refusal, or 99 of what is no call.
pub fn number(answer: Result<(), Failure>) -> u32
    ensures { result ≡ result_number answer }
{
    match answer {
        Ok(()) => 0,
        Err(Failure::NoCall) => 99,
        Err(Failure::Refused(refusal)) => refusal as u32,
    }
}

// What a call answered.
fn returned(answer: Result<(), Refusal>) -> Result<(), Failure>
    ensures value { result_number result ≡ number_of answer }
    ensures ok { is_ok result ≡ (number_of answer == 0) }
{
    answer.map_err(Failure::Refused)
}

// Ticks up to the first refusal.
#[tactic(auto, using(crate::proofs::Made::tick_made, crate::proofs::Made::ticks_done))]
fn ticks(image: &mut [u8], n: u32) -> Result<(), Failure>
    ensures { outcome (result_number result) image.new [] ≡ ticks_made n image.old }
{
    for _ in 0..n {
        returned(stled325_tick(image))?;
    }
    Ok(())
}

// A command of the bytes that are written.
// Kept: the bytes stand in an array, since a Vec could fail where this cannot.
#[tactic(auto, unfolding(crate::specs::Script::command_made))]
fn command(image: &mut [u8], out: &mut [u8], line: &[u8]) -> Result<(), Failure>
    ensures { outcome (result_number result) image.new out.new ≡ command_made line.now image.old out.old }
{
    let arguments = Part {
        line,
        from: b' ',
        to: b'>',
    };
    let mut bytes = [0; 24];
    let end = arguments.fill(&mut bytes).ok_or(Failure::NoCall)?;
    let sent = bytes.get(..end).ok_or(Failure::NoCall)?;
    returned(stled325_command(image, sent, out))
}

// An event of a word. Kept as a match: which call a letter is, is what it says, and the calls take unlike arguments.
#[tactic(auto, unfolding(crate::specs::Script::event_made))]
fn event(image: &mut [u8], word: u8, n: u32) -> Result<(), Failure>
    ensures { outcome (result_number result) image.new [] ≡ event_made word n image.old }
{
    match word {
        b'f' => returned(stled325_remote_frame(image, n)),
        b'k' => returned(stled325_key_sample(image, (n % 65_536) as u16)),
        b'o' => returned(stled325_supply_return(image, n)),
        b'p' => returned(stled325_power_up(image)),
        b'r' => returned(stled325_ready(image, n)),
        b't' => ticks(image, n),
        b'w' => returned(stled325_wake_up(image, n)),
        _ => Err(Failure::NoCall),
    }
}

// An event with its arguments. The number of ticks and of an outage is decimal.
#[tactic(auto, unfolding(crate::specs::Script::event_read))]
fn event_after(image: &mut [u8], word: u8, line: &[u8]) -> Result<(), Failure>
    ensures { outcome (result_number result) image.new [] ≡ event_read word line.now image.old }
{
    let arguments = Part {
        line,
        from: b' ',
        to: b'>',
    };
    let decimal = matches!(word, b't' | b'o');
    let number = arguments.number(decimal).ok_or(Failure::NoCall)?;
    let n = u32::try_from(number).map_err(|_| Failure::NoCall)?;
    event(image, word, n)
}

// The call of a word, which begins the line. Kept as a match, as in `event`.
#[tactic(auto, unfolding(crate::specs::Script::made))]
pub fn call(image: &mut [u8], out: &mut [u8], word: u8, line: &[u8]) -> Result<(), Failure>
    ensures { outcome (result_number result) image.new out.new ≡ made word line.now image.old out.old }
{
    match word {
        b'c' => command(image, out, line),
        b'l' => returned(stled325_lines(image, out)),
        b's' => returned(stled325_show(image, out)),
        _ => event_after(image, word, line),
    }
}
