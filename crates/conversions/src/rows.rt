// A thread's row of the converter: its next place, and its waiting writes as a window of a table.
//
// The window is the one that the run checker's rows have, from the crate machines. The imports of the methods stand in
// their block, since some of them name the row.
ghost use Rattle.std.specs.Prelude.{◌≤◌};
ghost use Rattle.machines.specs.Windows.{waiting};
ghost use Rattle.conversions.specs.Hosts.{width};

use crate::hosts;
use crate::hosts::Host;
use case::checked::CheckedCase;
use machines::rows::Window;
use records::action::Action;

// A fixed table with its window beside it: there is no heap where this runs.
#[derive(Clone, Copy)]
pub(crate) struct Row {
    pub(crate) window: Window,
    hosts: [Host; 64],
    ghost counted: { width (waiting window hosts) ≤ window.next },
}

impl Row {
    ghost use Rattle.std.specs.Prelude.{◌≡◌, suc, ◌<◌, [], ◌∷◌, ◌++◌};
    ghost use Rattle.std.specs.List.{slice_get};
    ghost use Rattle.records.specs.Names.{thread as thread_of};
    ghost use Rattle.case.specs.Cases.{threads};
    ghost use Rattle.conversions.specs.Hosts.{new_host, width as width_of, stay as stays_at, joins_at, leaving};
    ghost use Rattle.conversions.specs.Along.{start, performed, performed_next, drained, comes, comes_next, unhosted};
    ghost use Rattle.conversions.specs.Rows.{window, own_of};

    // Nothing performed, nothing waiting.
    pub(crate) fn fresh() -> Row
        ensures { own_of result ≡ start }
    {
        Row {
            window: Window::fresh(),
            hosts: [Host {
                location: 0,
                joined: 0,
            }; 64],
        }
    }

    pub(crate) fn waiting(&self) -> &[Host]
        ensures { result.now ≡ window self.now }
    {
        self.window.waiting(&self.hosts)
    }

    // How many actions wait.
    pub(crate) fn width(&self) -> usize
        ensures { result ≡ width_of (window self.now) }
    {
        self.waiting()
            .iter()
            .map(|host| usize::from(host.joined) + 1)
            .sum()
    }

    // A plain write is performed, and waits.
    #[tactic(auto, using(crate::proofs::Staying::width_append))]
    fn host(&mut self, location: u8)
        requires { self.old.window.next < 64 }
        ensures next { self.new.window.next ≡ suc self.old.window.next }
        ensures hosts { window self.new ≡ window self.old ++ (new_host location ∷ []) }
    {
        self.window.join(
            &mut self.hosts,
            Host {
                location,
                joined: 0,
            },
        );
    }

    // A plain read is performed, and joins the newest host to its location; where there is none, it comes now.
    #[tactic(auto, using(crate::proofs::Staying::staying))]
    fn join(&mut self, location: u8) -> u8
        requires { self.old.window.next < 64 }
        ensures value { result ≡ unhosted (stays_at location (window self.old)) }
        ensures next { self.new.window.next ≡ suc self.old.window.next }
        ensures hosts { window self.new ≡ joins_at (stays_at location (window self.old)) (window self.old) }
    {
        let stay = hosts::stay_at(self.waiting(), location);
        self.window.pass();
        if stay == 0 {
            return 1;
        }
        self.hosts[self.window.from as usize + stay - 1].joined += 1;
        0
    }

    // An action is performed. Answers how many actions come now.
    fn perform(&mut self, action: Action) -> u8
        requires { self.old.window.next < 64 }
        ensures value { result ≡ comes action (own_of self.old) }
        ensures after { own_of self.new ≡ performed action (own_of self.old) }
    {
        match action {
            Action::Read { location, .. } => self.join(location),
            Action::Write { location, .. } => {
                self.host(location);
                0
            }
            Action::Sync { .. } => {
                self.window.pass();
                1
            }
        }
    }

    // The thread performs its next action, if it has one. Answers how many actions come now.
    pub(crate) fn perform_next(&mut self, case: &CheckedCase, thread: u8) -> u8
        ensures value { result ≡ comes_next (slice_get (thread_of (threads case.now) thread) self.old.window.next) (own_of self.old) }
        ensures after { own_of self.new ≡ performed_next (slice_get (thread_of (threads case.now) thread) self.old.window.next) (own_of self.old) }
    {
        match case.action(thread, self.window.next) {
            Some(action) => self.perform(action),
            None => 0,
        }
    }

    // The oldest host leaves, if there is one. Answers how many actions come now: it and the reads that joined it.
    pub(crate) fn leave(&mut self) -> u8
        ensures value { result ≡ leaving (window self.old) }
        ensures after { own_of self.new ≡ drained (own_of self.old) }
    {
        match self.window.leave(&self.hosts) {
            Some(host) => host.joined + 1,
            None => 0,
        }
    }
}
