// The executions of docs/EXECUTIONS.md, through all layers: one table, and the theorem that all of it is as printed.
//
// Each row of specs/Table has the records and the items of one piece of evidence, and beside them what the page prints: what
// the form check answers, what the items come to on the machine of their kind, what complete evidence is converted to, and
// the row of the judge, whose bytes are compared from the first to the last. Nothing here runs.
#![tactic(auto)]

ghost use Rattle.std.specs.Prelude.{◌≡◌, true, length};
ghost use Rattle.records.specs.Executions.{turns_exchanged, locked_twice};
ghost use Rattle.executions.specs.Table.{table, stand, Whatever};

// How many rows the table has. All that they print is what is computed; and the last two cases are refused so whatever
// well-written evidence is given.
pub fn worked_executions() -> usize
    ensures count { result ≡ length table }
    ensures stand { stand table ≡ true }
    ensures begun_early { Whatever turns_exchanged "refused,case,17,4" }
    ensures locked_again { Whatever locked_twice "refused,case,18,2" }
{
    21
}
