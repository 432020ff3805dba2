// The plain writes that wait in a thread, and the reads that go with them.
ghost use Rattle.std.specs.Prelude.{◌≡◌};
ghost use Rattle.conversions.specs.Hosts.{stay};

// A write that has not drained yet, and how many reads saw it while it waited.
#[derive(Clone, Copy)]
pub(crate) struct Host {
    pub(crate) location: u8,
    pub(crate) joined: u8,
}

// How many of these hosts there are up to the newest to a location; 0 where none is to it.
#[tactic(auto, using(crate::proofs::Staying::stay_push))]
pub(crate) fn stay_at(hosts: &[Host], location: u8) -> usize
    ensures { result ≡ stay location hosts.now }
{
    for (older, host) in hosts.iter().enumerate().rev() {
        if host.location == location {
            return older + 1;
        }
    }
    0
}
