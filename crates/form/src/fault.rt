// What the form check finds, one variant a rule, with the index of the record. Printed, it says in words what is wrong.
ghost use Rattle.std.specs.Prelude.{◌≡◌};
ghost use Rattle.form.specs.Form.{told};

use thiserror::Error;

#[derive(Clone, Copy, Debug, PartialEq, Error)]
pub enum FormFault {
    // the 257th record, a thread above 7 or falling, the 65th of a thread
    #[error("too many records, a thread above 7, threads that do not rise, or a 65th record of a thread")]
    Grouping(usize),
    // letter or target outside its range, an unused field not 0, a capital's turn 0 or above 256
    #[error("a letter or target outside its range, a field that the letter does not use and that is not 0, or a turn of 0 or above 256")]
    Field(usize),
    // a location of the other sort in an earlier record
    #[error("the location is used as plain in one record and as volatile in another")]
    MixedLocation(usize),
    // a seen that is no write to that location, nor its default
    #[error("the read saw a write that is not in the case, or is to another location")]
    UnknownWrite(usize),
    // a turn above the number of capitals, one that an earlier record has, or one below its thread's last
    #[error("the turn is above the number of capital letters, or taken already, or before the thread's last")]
    Turn(usize),
    // a first record that is not B, a B elsewhere, anything after E
    #[error("the thread does not begin with B, or begins twice, or goes on after E")]
    Frame(usize),
    // a thread's state and a letter that do not fit
    #[error("the state of the thread does not fit: it begins before it is spawned, is spawned twice, or is joined before it ended")]
    Life(usize),
    // a held monitor locked, or one unlocked by a thread that does not hold it
    #[error("the monitor is held already, or is unlocked by a thread that does not hold it")]
    Monitor(usize),
}

impl FormFault {
    // 11 to 18, in the order of the variants
    pub fn number(&self) -> u8
        ensures { result ≡ (told self.now).number }
    {
        match self {
            FormFault::Grouping(_) => 11,
            FormFault::Field(_) => 12,
            FormFault::MixedLocation(_) => 13,
            FormFault::UnknownWrite(_) => 14,
            FormFault::Turn(_) => 15,
            FormFault::Frame(_) => 16,
            FormFault::Life(_) => 17,
            FormFault::Monitor(_) => 18,
        }
    }

    // the index of the record in the list, from 0
    pub fn place(&self) -> usize
        ensures { result ≡ (told self.now).place }
    {
        match *self {
            FormFault::Grouping(place)
            | FormFault::Field(place)
            | FormFault::MixedLocation(place)
            | FormFault::UnknownWrite(place)
            | FormFault::Turn(place)
            | FormFault::Frame(place)
            | FormFault::Life(place)
            | FormFault::Monitor(place) => place,
        }
    }
}
