// Keys of the remote control.
ghost use Rattle.std.specs.Prelude.{◌≡◌};
ghost use Rattle.controller.specs.Remote.{keyed};

use crate::{Core, REMOTE_WAKES, Remote, Source};
use remote::RemoteKey;

impl Core {
    // A remote key is stored fresh; in standby it counts only with configuration b2.
    #[tactic(auto, unfolding(crate::specs::Remote::keyed))]
    pub fn receive_key(mut self, key: RemoteKey) -> Core
        ensures { result ≡ keyed self key.address key.command }
    {
        self.remote = Remote {
            fresh: 1,
            address: key.address,
            command: key.command,
        };
        if self.power.stby & !common::bit(self.setup.configuration, REMOTE_WAKES) {
            return self;
        }
        self.raise(Source::Remote)
    }
}
