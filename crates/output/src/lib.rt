// The output of a reading command: the reply's bytes, then FFh to the end.
#![tactic(auto)]

ghost use Rattle.std.specs.Prelude.{◌≡◌, length};
ghost use Rattle.output.specs.Output.{answered};

// What stands beyond a reply.
const FILL: u8 = 0xFF;

// Writes the reply, as much of it as the output holds, and FFh beyond it. Kept as a loop that asks at each byte whether the output holds it, and not
// as a copy: a copy of as many bytes as there are calls `memcpy`, and the archive needs no function of the C library but `memset` (README).
pub fn answer(out: &mut [u8], reply: &[u8])
    ensures { out.new ≡ answered reply.now (length out.old) }
{
    for i in 0..reply.len() {
        if i < out.len() {
            out[i] = reply[i];
        }
    }
    let end = reply.len().min(out.len());
    out[end..].fill(FILL);
}
