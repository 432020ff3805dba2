// A checked case: up to 256 records that are in form, and what can be asked of them.
//
// There are two ways to one: the empty case, and `fill`, which checks the records first. All layers above take a
// `&CheckedCase`, so that none of them sees records that are not in form. Its meaning is a list of records
// (`records_of`), and the eight threads' actions (`threads`); both are in specs/Cases.
#![tactic(auto)]

ghost use Rattle.std.specs.Prelude.{◌≡◌, ◌<◌, ◌≤◌, true, [], length, take, IfSome, Some, OnErr};
ghost use Rattle.std.specs.List.{slice_get};
ghost use Rattle.records.specs.Actions.{Located};
ghost use Rattle.records.specs.Names.{of_thread, thread as thread_of, record_named};
ghost use Rattle.form.specs.Form.{form_refusal, refusal_in};
ghost use Rattle.form.specs.Laws.{Lawful};
ghost use Rattle.case.specs.Cases.{records_of, threads, filled, name_at};
ghost use Rattle.case.specs.Worked.{stand, examples};

pub mod checked;

use checked::CheckedCase;
use form::check_form;
use form::fault::FormFault;
use form::threads::Layout;
use records::Record;
use records::action::Action;
use records::names::named;

// These records at the front of a full table.
fn padded(records: &[Record]) -> [Record; 256]
    requires { length records.now ≤ 256 }
    ensures { take (length records.now) result ≡ records.now }
{
    let mut all = [Record::default(); 256];
    all[..records.len()].copy_from_slice(records);
    all
}

impl CheckedCase {
    pub fn empty() -> CheckedCase
        ensures { records_of result ≡ [] }
    {
        CheckedCase {
            records: [Record::default(); 256],
            count: 0,
            layout: Layout { starts: [0; 9] },
        }
    }

    // Holds these records from now on if they are in form, else says what is wrong and stays as it is.
    pub fn fill(&mut self, records: &[Record]) -> Result<(), FormFault>
        ensures verdict { refusal_in result ≡ form_refusal records.now }
        ensures after { records_of self.new ≡ filled records.now (records_of self.old) }
        ensures kept { OnErr result (self.new ≡ self.old) }
    {
        let layout = check_form(records)?;
        *self = CheckedCase {
            records: padded(records),
            count: records.len() as u16,
            layout,
        };
        Ok(())
    }

    // The records, which are in form.
    pub fn records(&self) -> &[Record]
        ensures value { result.now ≡ records_of self.now }
        ensures lawful { Lawful result.now }
    {
        &self.records[..self.count as usize]
    }

    // A thread's records, in program order: one for each of its actions.
    pub fn thread(&self, thread: u8) -> &[Record]
        ensures value { result.now ≡ of_thread thread (records_of self.now) }
        ensures len { length result.now ≡ length (thread_of (threads self.now) thread) }
        ensures few { length result.now ≤ 64 }
    {
        &self.records()[self.layout.range(thread)]
    }

    // The action at a place of a thread.
    pub fn action(&self, thread: u8, place: u8) -> Option<Action>
        ensures value { result ≡ slice_get (thread_of (threads self.now) thread) place }
        ensures located { IfSome result Located }
    {
        let record = self.thread(thread).get(place as usize)?;
        record.action(named(thread, place))
    }

    // The name of the record at an index.
    pub fn name(&self, index: usize) -> Option<u16>
        ensures value { result ≡ name_at (records_of self.now) index }
        ensures found { IfSome result (λ n. record_named (records_of self.now) n ≡ Some index) }
    {
        let thread = self.records().get(index)?.thread;
        let place = index - self.layout.range(thread).start;
        Some(named(thread, place as u8))
    }

    // The index of the record that has a name.
    pub fn find(&self, name: u16) -> Option<usize>
        ensures value { result ≡ record_named (records_of self.now) name }
        ensures named { IfSome result (λ k. name_at (records_of self.now) k ≡ Some name) }
    {
        self.layout.find(name)
    }
}

// How many answers of the form check docs/EXECUTIONS.md prints, which are all proved to be what the check answers.
// A function for the table of each layer, here and above, and none for all: a theorem's table is no argument of a call.
pub fn worked_forms() -> usize
    ensures count { result ≡ length examples }
    ensures stand { stand examples ≡ true }
{
    13
}
