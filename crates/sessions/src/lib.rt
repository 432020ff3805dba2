// Whole uses of a docket: one examination from its opening to its end.
//
// `examination` is what most callers want: it opens, offers a list of items one by one, and hands the ticket in again. It is
// proved from the contracts of the docket's own calls alone, by the plain docket that the docket stands for (specs/Plain and
// specs/Standing of the crate docket). specs/Examinations says what an examination comes to. Lists of calls in any mixture
// are in the module work of the crate docket.
#![tactic(auto)]

pub mod examination;
