// The laws of the two machines, in the words of the subject, as theorems that the check demands.
//
// The machines of crates/machines are defined step by step; specs/Runs and specs/Orders say what holds of every list of
// items that they take without following the steps: what an item does is told by what came before it. Nothing here runs.
#![tactic(auto)]

ghost use Rattle.std.specs.Prelude.{◌≡◌, true, length};
ghost use Rattle.laws.specs.Orders.{OrderLaw};
ghost use Rattle.laws.specs.Runs.{RunLaws};
ghost use Rattle.laws.specs.Worked.{stand, examples};

// Memory holds the last write that reached it, waiting writes are those performed and not drained in program order, and
// every action that was performed is sound: its read saw what the rule says, its turn was the next.
pub fn run_laws()
    ensures { RunLaws }
{}

// Moved lists come from program order by legal moves; in the one order each read sees the last earlier write to its
// location, or the default, and synchronization actions come by turn.
pub fn order_law()
    ensures { OrderLaw }
{}

// How many answers of the two machines docs/EXECUTIONS.md prints, which are all proved to be what they answer.
// A function for the table of each layer, here and above, and none for all: a theorem's table is no argument of a call.
pub fn worked_machines() -> usize
    ensures count { result ≡ length examples }
    ensures stand { stand examples ≡ true }
{
    15
}
