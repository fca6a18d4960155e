// Layers: cables made of other cables, which they hold by value. Any pile of layers is again a cable.
#![tactic(auto)]

pub mod extras;
pub mod joint;
pub mod stretch;
