// When a case is in form: the eight rules, looked for in the order of their numbers.
//
// Each rule is a test of one record or of one turn, defined in specs/ (Rules, Lives, Monitors), and a check here that
// answers the first record that breaks it. Rules 11 to 16 go along the list, 17 and 18 along the turns. A later rule
// may lean on what an earlier one has ruled out (an index that rule 12 keeps in range): it takes a type that only the
// earlier check makes (`Grouped`, `WellFormed`, `Turns`). `check_form` asks nothing of anybody. What follows of a case
// in form is in specs/Laws.
#![tactic(auto)]

ghost use Rattle.std.specs.Prelude.{◌≡◌, IfOk};
ghost use Rattle.form.specs.Form.{form_refusal, refusal_in};
ghost use Rattle.form.specs.Layouts.{starts_of};

pub mod fault;
mod formed;
mod grouping;
mod life;
mod monitors;
mod rules;
pub mod threads;
mod turns;

use fault::FormFault;
use formed::WellFormed;
use grouping::Grouped;
use records::Record;
use threads::Layout;

// Checks a list of records of any length and content: where its threads start, or the first rule that has a break.
pub fn check_form(records: &[Record]) -> Result<Layout, FormFault>
    ensures verdict { refusal_in result ≡ form_refusal records.now }
    ensures layout { IfOk result (λ l. l.starts ≡ starts_of records.now) }
{
    let grouped = Grouped::check(records)?;
    let formed = WellFormed::check(grouped)?;
    formed.check_locations()?;
    formed.check_reads()?;
    let turns = turns::Turns::check(formed)?;
    formed.check_frames()?;
    life::check_lives(&turns)?;
    monitors::check_monitors(&turns)?;
    Ok(formed.layout)
}
