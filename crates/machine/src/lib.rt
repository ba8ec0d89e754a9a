// The machine: a run is a small record by value; its slots and frames lie in a lent work area. `steps::step` makes one visit or one return; `strides`
// has two visits and the return between them at once.
#![tactic(auto)]

pub mod steps;
mod strides;
