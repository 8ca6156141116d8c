// Demand 3 as the promise of code: a series of supply returns, each the real call, with no other event between.
#![tactic(auto)]

ghost use Rattle.std.specs.Prelude.{◌≡◌, set};
ghost use Rattle.series.specs.Demand.{Demand3};

// Writes a number to its place, if there is one.
fn note(answers: &mut [u32], i: usize, number: u32)
    ensures { answers.new ≡ set answers.old i number }
{
    if i < answers.len() {
        answers[i] = number;
    }
}

// Kept as two slices, which the caller lends: there may be fewer places than returns, and `series/Demand.Demand3` speaks of each.
// Calls supply return after each n of ns in turn, and writes each call's number to its place in answers, as far as answers has places.
pub fn supply_series(image: &mut [u8], ns: &[u32], answers: &mut [u32])
    ensures { Demand3 image.old ns.now answers.old image.new answers.new }
{
    for i in 0..ns.len() {
        let answer = stled325::stled325_supply_return(image, ns[i]);
        note(answers, i, common::number(answer));
    }
}
