//! Runs: what a core does, event by event, speculation and its taking-back included, and the path that is left once all is
//! retired.
//!
//! The P0 steps are the P0 elements of ETMv4 (Arm IHI 0064); which word is which kind of branch, the Arm ARM says (Arm DDI 0487).
//!
//! A run stands over the image of the program. Each event either has its case in the table of `docs/FORMATS.md`, "Runs", or is
//! refused, and a refused event changes nothing. The steps that a retire came to are retired; what a cancel or the end of
//! tracing took away was never executed.
//!
//! The layer above uses these contracts:
//! - [`Run`]: each event is accepted or refused as the definition says, with its answer.
//! - [`RetiredPath`]: the retired path grows by the block that it gives.
//! - the laws: steps are executed as the image allows, the retired path goes block by block and grows event by event, a
//!   `RetiredPath` can take each executed step, and events go one by one.
#![tactic(auto)]

mod effect;
mod event;
mod laws;
mod retired_path;
mod run;
mod run_fault;
mod standing;
mod step;

pub use effect::Effect;
pub use event::{Done, Event};
pub use laws::{
    events_go_one_by_one, paths_go_by_blocks, retired_path_grows,
    retired_path_takes_executed_steps, steps_are_executed,
};
pub use retired_path::RetiredPath;
pub use run::Run;
pub use run_fault::RunFault;
pub use step::{RunStep, StepKind};
