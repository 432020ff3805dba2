// The rules along the list that lean on 11 and 12 alone: 13, 14 and 16.
ghost use Rattle.std.specs.Prelude.{◌≡◌, ◌<◌, ◌&&◌, length, ◌==◌, None, IfSome};
ghost use Rattle.records.specs.Letters.{is_write};
ghost use Rattle.records.specs.Names.{record_named};
ghost use Rattle.records.specs.Refusals.{refuse};
ghost use Rattle.form.specs.Form.{along_list, refusal_in};
ghost use Rattle.form.specs.Rules.{sort_of, mixed, saw_no_write, sees_no_write, frame_after, misframed};

use crate::fault::FormFault;
use crate::formed::WellFormed;
use records::Record;
use records::names::default_write;

fn writes_to(r: &Record, location: u8) -> bool
    ensures { result ≡ (is_write r.now.letter && r.now.target == location) }
{
    r.is_write() && r.target == location
}

// The sort of a location, which is that of all accesses to it.
#[derive(Clone, Copy, PartialEq)]
enum Sort {
    Plain,
    Volatile,
}

impl Sort {
    // The sort of location that a letter accesses.
    fn of(letter: char) -> Option<Sort>
        ensures { result ≡ sort_of letter }
    {
        match letter {
            'r' | 'w' => Some(Sort::Plain),
            'R' | 'W' => Some(Sort::Volatile),
            _ => None,
        }
    }
}

// Where a thread stands: before its first record, within its records, or after its E.
#[derive(Clone, Copy)]
enum Frame {
    Before,
    Within,
    After,
}

impl Frame {
    // Where the thread stands after a record of this letter, if the letter may come now.
    fn after(self, letter: char) -> Option<Frame>
        ensures { result ≡ frame_after self letter }
    {
        match (self, letter) {
            (Frame::Before, 'B') => Some(Frame::Within),
            (Frame::Within, 'B') => None,
            (Frame::Within, 'E') => Some(Frame::After),
            (Frame::Within, _) => Some(Frame::Within),
            (Frame::Before | Frame::After, _) => None,
        }
    }
}

impl WellFormed<'_> {
    // 13
    pub(crate) fn check_locations(&self) -> Result<(), FormFault>
        ensures { refusal_in result ≡ refuse 13 (along_list mixed self.now.records.now) None }
    {
        let mut sorts = [None; 64];
        for (k, r) in self.records.iter().enumerate() {
            let Some(sort) = Sort::of(r.letter) else {
                continue;
            };
            if *sorts[r.target as usize].get_or_insert(sort) != sort {
                return Err(FormFault::MixedLocation(k));
            }
        }
        Ok(())
    }

    // The index of the record that has a name.
    fn find(&self, name: u16) -> Option<usize>
        ensures value { result ≡ record_named self.now.records.now name }
        ensures within { IfSome result (λ k. k < length self.now.records.now) }
    {
        self.layout.find(name)
    }

    fn sees_no_write(&self, r: &Record) -> bool
        ensures { result ≡ sees_no_write self.now.records.now r.now }
    {
        r.is_read()
            && r.seen != default_write(r.target)
            && !self
                .find(r.seen)
                .is_some_and(|j| writes_to(&self.records[j], r.target))
    }

    fn first_unknown(&self) -> Option<usize>
        ensures { result ≡ along_list saw_no_write self.now.records.now }
    {
        self.records.iter().position(|r| self.sees_no_write(r))
    }

    // 14
    pub(crate) fn check_reads(&self) -> Result<(), FormFault>
        ensures { refusal_in result ≡ refuse 14 (along_list saw_no_write self.now.records.now) None }
    {
        self.first_unknown()
            .map_or(Ok(()), |k| Err(FormFault::UnknownWrite(k)))
    }

    // 16
    pub(crate) fn check_frames(&self) -> Result<(), FormFault>
        ensures { refusal_in result ≡ refuse 16 (along_list misframed self.now.records.now) None }
    {
        let mut frames = [Frame::Before; 8];
        for (k, r) in self.records.iter().enumerate() {
            let frame = &mut frames[r.thread as usize];
            *frame = frame.after(r.letter).ok_or(FormFault::Frame(k))?;
        }
        Ok(())
    }
}
