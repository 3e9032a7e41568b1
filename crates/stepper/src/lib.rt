// The stepper: what runs on the instrument. A state is a queue, a slot and the energy spent; it is passed in and the next one handed back,
// with the speed of the slot that begins. The state with its two calls (state), what a run goes by and the speed of a slot (run), what a
// slot does to a state (step), and what all of them test (tests). What they look up on the sheet and in the plan is in crates of their own,
// lookups and layout.
//
// Every call takes every input and tests it itself: any sheet, any plan bytes, any state, any arrival. No total of a bearable queue is
// above 48 and no size on a sheet above 255, so that no count of work wraps; and none goes below 0.
#![tactic(auto)]

mod run;
mod state;
mod step;
mod tests;

pub use state::{State, Stepped};
