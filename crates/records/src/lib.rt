// The data that every layer reads: records of a case, items of evidence, actions and their names.
//
// A case is a list of records, one for each action that a trace port saw, grouped by thread. `Record` is a line of that
// list as it came, with any bytes in its fields. `Action` is what the letter makes of a record; the layers that judge
// speak of actions and never of letters. An item is one step of the evidence for a case. Nothing here allocates.
//
// Whoever adds a letter adds it in `Record::action`, in the tests below, and in specs/Letters.antt: the contracts
// tie the two together.
#![tactic(auto)]

ghost use Rattle.std.specs.Prelude.{◌≡◌};
ghost use Rattle.records.specs.Letters.{is_capital, is_plain, is_volatile, is_read, is_write};

pub mod action;
pub mod names;

// One action of a case, as it was traced. Which fields are used is told by the letter; the others are 0 in a case in form.
// The letter is no enum, since a caller in C may hand in any character, and the form check has to answer for it.
#[derive(Clone, Copy, Debug, Default, PartialEq)]
pub struct Record {
    pub letter: char,
    pub value: u32,
    pub seen: u16,
    pub turn: u16,
    pub thread: u8,
    pub target: u8,
}

// One step of evidence: of a run ('A', 'D') or of a certificate ('M', 'O'). As in a record the letter is any
// byte that a caller hands in; `RunItem` and `CertificateItem` of the crate machines are the enums of what it says.
#[derive(Clone, Copy, Debug, Default, PartialEq)]
pub struct Item {
    pub letter: u8,
    pub thread: u8,
    pub place: u8,
    pub count: u8,
}

impl Record {
    // Whether the letter is a capital: a synchronization action, which has a turn.
    pub fn is_capital(&self) -> bool
        ensures { result ≡ is_capital self.now.letter }
    {
        matches!(self.letter, 'R' | 'W' | 'L' | 'U' | 'S' | 'J' | 'B' | 'E')
    }

    // Whether it reads or writes a plain location.
    pub fn is_plain(&self) -> bool
        ensures { result ≡ is_plain self.now.letter }
    {
        matches!(self.letter, 'r' | 'w')
    }

    // Whether it reads or writes a volatile location.
    pub fn is_volatile(&self) -> bool
        ensures { result ≡ is_volatile self.now.letter }
    {
        matches!(self.letter, 'R' | 'W')
    }

    // Whether it reads a location, plain or volatile.
    pub fn is_read(&self) -> bool
        ensures { result ≡ is_read self.now.letter }
    {
        matches!(self.letter, 'r' | 'R')
    }

    // Whether it writes a location, plain or volatile.
    pub fn is_write(&self) -> bool
        ensures { result ≡ is_write self.now.letter }
    {
        matches!(self.letter, 'w' | 'W')
    }
}
