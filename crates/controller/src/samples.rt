// Key samples.
ghost use Rattle.std.specs.Prelude.{◌≡◌};
ghost use Rattle.controller.specs.Keys.{counted, pressed, sampled};

use crate::{ALL_HOT, Core, Source};

impl Core {
    // The new presses that count: with STBY high only the hot ones.
    fn count_presses(self, new: u32) -> u32
        ensures { result ≡ counted self new }
    {
        if !self.power.stby | common::bit(self.setup.configuration, ALL_HOT) {
            return new;
        }
        new & self.keys.mask
    }

    // New presses that count join the store and are a key event.
    #[tactic(auto, unfolding(crate::specs::Keys::pressed))]
    fn press(mut self, new: u32) -> Core
        ensures { result ≡ pressed self new }
    {
        let count = self.count_presses(new);
        if count == 0 {
            return self;
        }
        self.keys.store |= count;
        self.raise(Source::Key)
    }

    // A key sample: two equal samples running are accepted.
    #[tactic(auto, unfolding(crate::specs::Keys::sampled))]
    pub fn sample_keys(mut self, sample: u32) -> Core
        ensures { result ≡ sampled self sample }
    {
        if sample == self.keys.sample {
            let new = sample & !self.keys.accepted;
            self.keys.accepted = sample;
            return self.press(new);
        }
        self.keys.sample = sample;
        self
    }
}
