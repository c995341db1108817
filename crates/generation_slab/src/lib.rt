//! What is held under numbers, none of which is given twice. A number is a generation and a slot: a slot that is freed is used
//! again with the next generation, and never after the greatest. It takes memory for what was held at once, not for all that ever
//! was. Contracts see the places where something stands, the numbers that were issued, and for how many values more the memory is
//! taken (`specs/HeldPlaces.antt`). It says nothing of what it holds.
#![tactic(auto)]

mod slots;

pub use slots::GenerationSlab;
