// The two machines that judge one execution.
//
// `Run` replays a run on store buffers, `Certificate` checks moves and one order of all actions. Both are fed one item
// at a time after a begin, and each stands, for a case, for a state of the machine that specs/Run or specs/Certificate
// defines (`run_state`, `order_state`): begin makes it the fresh one, put follows the step or answers the fault and stays,
// finished tells whether the state is complete. What is refused changes nothing. Nothing here allocates.
#![tactic(auto)]

pub mod certificate;
pub mod faults;
pub mod items;
pub mod lists;
pub mod memory;
pub mod rows;
pub mod run;
pub mod window;
