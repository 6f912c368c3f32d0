// What a run of a module means (specs/), and the laws of runs. There is no code here but functions that do nothing and
// carry a law each in their contracts.
#![tactic(auto)]

mod laws;

pub use laws::{
    budget_stands, calls_stand, figures_stand, grouping_stands, indices_stand, loops_stand,
    parts_stand, room_stands, steps_stand, types_stand,
};
