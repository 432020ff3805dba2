// Whole lists of calls, with tickets of any origin kept in slots beside the docket.
//
// A call names a slot; the ticket in it may be of this docket or of another, of an open examination or of one that ended.
// `work_off` and `session` say of every list of calls, in any mixture and refused ones too, what the docket promises as a
// whole: the answers, the verdicts, the tickets and the counts are the plain docket's, and the model allows the case
// exactly when there is complete evidence. `session` says it of a new docket, `work_off` of any, by the plain docket
// that it stands for.
ghost use Rattle.std.specs.Prelude.{◌≡◌, ◌≤◌, Some, None, length, drop, is_ok, IfOk, IfErr, OnOk, OnErr, nat_le};
ghost use Rattle.docket.specs.Promise.{ByEvidence, Answered, RuledOnItems, SlotsLeft, CountsLeft, TidySlots, PlainAnswers, PlainRulings, PlainSlots, PlainCounts, StillStands};
ghost use Rattle.docket.specs.Plain.{empty};
ghost use Rattle.docket.specs.Slots.{desk, worked};
ghost use Rattle.docket.specs.Standing.{Balanced, Stands};
ghost use Rattle.docket.specs.Working.{refused_ticket, Acted};

use crate::Docket;
use crate::calls::{Answer, Call};
use crate::fault::HandedBack;
use crate::ticket::Ticket;
use case::checked::CheckedCase;
use kinds::Evidence;
use records::Item;
use thiserror::Error;

// There are more calls than places for their answers.
#[derive(Clone, Copy, Debug, PartialEq, Error)]
#[error("there are more calls than places for answers")]
pub struct TooFewAnswers;

// The answer to a ticket that is handed back, which is put into its slot again.
fn refused<F>(slot: &mut Option<Ticket>, back: HandedBack) -> Answer<F>
    requires { slot.old ≡ None }
    ensures answer { result ≡ refused_ticket back.fault }
    ensures again { slot.new ≡ Some back.ticket }
{
    let HandedBack { fault, ticket } = back;
    *slot = Some(ticket);
    Answer::Refused(fault.into())
}

fn open_at<K: Evidence>(
    docket: &mut Docket<K>,
    held: &mut [Option<Ticket>],
    slot: usize,
) -> Option<Answer<K::Fault>>
    ensures acted { Acted K.Evidence K.Fault.number docket.old held.old (Call.Open slot) result docket.new held.new }
{
    if held.get(slot)?.is_some() {
        return None;
    }
    match docket.open() {
        Ok(ticket) => {
            let name = ticket.name();
            held[slot] = Some(ticket);
            Some(Answer::Opened(name))
        }
        Err(fault) => Some(Answer::Refused(fault.into())),
    }
}

fn offer_at<K: Evidence>(
    docket: &mut Docket<K>,
    held: &[Option<Ticket>],
    slot: usize,
    item: Item,
) -> Option<Answer<K::Fault>>
    ensures acted { Acted K.Evidence K.Fault.number docket.old held.now (Call.Offer slot item) result docket.new held.now }
{
    let ticket = held.get(slot)?.as_ref()?;
    match docket.offer(ticket, item) {
        Ok(()) => Some(Answer::Taken),
        Err(fault) => Some(Answer::Refused(fault)),
    }
}

// Here and below the slot's number is tested, and no `get_mut` taken (tried): it says nothing of the slots afterwards.
#[tactic(auto, using(crate::proofs::Refilling::put_back))]
fn settle_at<K: Evidence>(
    docket: &mut Docket<K>,
    held: &mut [Option<Ticket>],
    slot: usize,
) -> Option<Answer<K::Fault>>
    ensures acted { Acted K.Evidence K.Fault.number docket.old held.old (Call.Settle slot) result docket.new held.new }
{
    if slot >= held.len() {
        return None;
    }
    let ticket = held[slot].take()?;
    match docket.settle(ticket) {
        Ok(verdict) => Some(Answer::Settled(verdict)),
        Err(back) => Some(refused(&mut held[slot], back)),
    }
}

#[tactic(auto, using(crate::proofs::Refilling::put_back))]
fn withdraw_at<K: Evidence>(
    docket: &mut Docket<K>,
    held: &mut [Option<Ticket>],
    slot: usize,
) -> Option<Answer<K::Fault>>
    ensures acted { Acted K.Evidence K.Fault.number docket.old held.old (Call.Withdraw slot) result docket.new held.new }
{
    if slot >= held.len() {
        return None;
    }
    let ticket = held[slot].take()?;
    match docket.withdraw(ticket) {
        Ok(items) => Some(Answer::Withdrawn(items)),
        Err(back) => Some(refused(&mut held[slot], back)),
    }
}

// One call. None where the docket is not asked: the slot is not there, or has no ticket, or for an opening no room.
fn act<K: Evidence>(
    docket: &mut Docket<K>,
    held: &mut [Option<Ticket>],
    call: Call,
) -> Option<Answer<K::Fault>>
    ensures acted { Acted K.Evidence K.Fault.number docket.old held.old call result docket.new held.new }
{
    match call {
        Call::Open(slot) => open_at(docket, held, slot),
        Call::Offer(slot, item) => offer_at(docket, held, slot, item),
        Call::Settle(slot) => settle_at(docket, held, slot),
        Call::Withdraw(slot) => withdraw_at(docket, held, slot),
    }
}

// Works a list of calls off, in its order, each with the ticket in the slot that it names, and writes the answers to the
// front of a list. Where there are more calls than places for answers, nothing is done.
//
// Docket and slots stay two arguments: a struct that borrows both would need clauses in each method that it still does.
// Calls and answers stay two lists: both are the caller's, one to read and one to write, and nothing here allocates.
pub fn work_off<K: Evidence>(
    docket: &mut Docket<K>,
    held: &mut [Option<Ticket>],
    calls: &[Call],
    answers: &mut [Option<Answer<K::Fault>>],
) -> Result<(), TooFewAnswers>
    ensures room { is_ok result ≡ nat_le (length calls.now) (length answers.old) }
    ensures untouched { OnErr result ((docket.new ≡ docket.old) × (held.new ≡ held.old) × (answers.new ≡ answers.old)) }
    ensures case { docket.new.case ≡ docket.old.case }
    ensures number { docket.new.number ≡ docket.old.number }
    ensures rest { drop (length calls.now) answers.new ≡ drop (length calls.now) answers.old }
    ensures answers { OnOk result (PlainAnswers K.Evidence docket.old held.old calls.now K.Fault.number answers.new) }
    ensures tickets { OnOk result (PlainSlots K.Evidence docket.old held.old calls.now held.new) }
    ensures stands { OnOk result (StillStands K.Evidence docket.old held.old calls.now docket.new) }
    ensures rulings { OnOk result (PlainRulings K.Evidence docket.old held.old calls.now K.Fault.number answers.new) }
    ensures counts { OnOk result (PlainCounts K.Evidence docket.old held.old calls.now docket.new.counts) }
    ensures balanced { Balanced docket.new.counts }
    ensures single { docket.new.counts.«open» ≤ 1 }
    ensures model { ByEvidence (K.machine docket.old.case) (K.allows docket.old.case) }
{
    if calls.len() > answers.len() {
        return Err(TooFewAnswers);
    }
    // an index, and no `zip` with `iter_mut` (tried): that says nothing of the answers afterwards
    for (i, call) in calls.iter().enumerate() {
        answers[i] = act(docket, held, *call);
    }
    Ok(())
}

// The same on a new docket, whose number and case these are: the docket, or the checker again where there is no room.
pub fn session<K: Evidence>(
    checker: K,
    case: &CheckedCase,
    number: u16,
    held: &mut [Option<Ticket>],
    calls: &[Call],
    answers: &mut [Option<Answer<K::Fault>>],
) -> Result<Docket<K>, K>
    ensures room { is_ok result ≡ nat_le (length calls.now) (length answers.old) }
    ensures untouched { IfErr result (λ k. (k ≡ checker) × (held.new ≡ held.old) × (answers.new ≡ answers.old)) }
    ensures answers { OnOk result (Answered (K.machine case.now) number (desk empty held.old) calls.now K.Fault.number answers.new) }
    ensures rest { drop (length calls.now) answers.new ≡ drop (length calls.now) answers.old }
    ensures rulings { OnOk result (RuledOnItems (K.machine case.now) number (desk empty held.old) calls.now K.Fault.number answers.new) }
    ensures tickets { OnOk result (SlotsLeft (K.machine case.now) number (desk empty held.old) calls.now held.new) }
    ensures returned { OnOk result (TidySlots held.old calls.now held.new) }
    ensures stands { IfOk result (λ d. Stands K.Evidence d (worked (K.machine case.now) number (desk empty held.old) calls.now).plain) }
    ensures case { IfOk result (λ d. d.case ≡ case.now) }
    ensures number { IfOk result (λ d. d.number ≡ number) }
    ensures counts { IfOk result (λ d. CountsLeft (K.machine case.now) number (desk empty held.old) calls.now d.counts) }
    ensures balanced { IfOk result (λ d. Balanced d.counts) }
    ensures single { IfOk result (λ d. d.counts.«open» ≤ 1) }
    ensures model { ByEvidence (K.machine case.now) (K.allows case.now) }
{
    if calls.len() > answers.len() {
        return Err(checker);
    }
    let mut docket = Docket::new(checker, case, number);
    work_off(&mut docket, held, calls, answers).unwrap();
    Ok(docket)
}
