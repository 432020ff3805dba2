// Tickets. One is made by `open` and goes back by `settle` or `withdraw`; nothing else makes or spends one, and a program
// that lets go of one that was not spent has no proof, so it is not built.
ghost use Rattle.std.specs.Prelude.{◌≡◌, true, false};

// What stands on a ticket: the docket's number, and which of its examinations this is, from 1.
#[derive(Clone, Copy, Debug, PartialEq)]
pub struct TicketName {
    pub docket: u16,
    pub examination: u16,
}

#[must_use]
pub struct Ticket {
    name: TicketName,
    // a flag, and no type without `Drop`: so a ticket that lapses is a fact that is not proved, which must-fail edits can try
    spent: bool,
}

impl Drop for Ticket {
    fn drop(self)
        requires { self.spent ≡ true }
    {
        let Ticket { name: _, spent: _ } = self;
    }
}

impl Ticket {
    pub(crate) fn new(name: TicketName) -> Ticket
        ensures made { result ≡ record { name = name; spent = false } }
    {
        Ticket { name, spent: false }
    }

    pub fn name(&self) -> TicketName
        ensures value { result ≡ self.now.name }
    {
        self.name
    }

    pub(crate) fn spend(mut self) {
        self.spent = true;
    }
}
