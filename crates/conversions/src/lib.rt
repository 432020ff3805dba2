// Evidence of one kind converted into evidence of the other, into a list that the caller lends.
//
// A converter takes a case in form and evidence for it. It first holds the evidence to the checker of its own kind
// (`examine`), and answers with the checker's refusal if there is one (`ConversionFault`); then the list is untouched. What
// is written is said by the crate agreement, whose theorems make it complete evidence of the other kind. The functions that
// write pass on the list as a `Sheet`, which knows how far it is written.
//
// A complete run becomes a certificate (`to_certificate`): first the moves, thread by thread, and then one order of all
// actions. The list is said by moments (`written` of agreement's specs/Evidence); specs/Along has the same list as it is
// written along the run, and proofs/Whole shows that both are one. A thread is followed by a row: its next place, and its
// waiting writes, each a host with the number of reads that saw it while it waited. One row at a time serves the moves,
// eight the order: about a kilobyte. No memory is replayed there: the run is known to be complete.
//
// A complete certificate becomes a run (`to_run`): for each action that comes its thread performs all that it has not
// performed up to this action, and drains a plain write at once. Nothing here allocates.
#![tactic(auto)]

pub mod certificate;
mod examine;
pub mod fault;
mod hosts;
mod moves;
mod order;
pub mod replay;
mod rows;
mod sheet;
