// The HBS mode of deterministic authenticated encryption, over every cipher and multiplier.
#![tactic(auto)]

pub mod hash;
pub mod hbs;
pub mod mismatch;
mod padding;
pub mod sealing;
pub mod stream;

ghost use Rattle.mode.specs.Theorems.{Inverses};
ghost use Rattle.mode.specs.Worked.{WorkedCases};

/// States that opening undoes sealing, and that nothing else opens.
pub fn inverse_laws()
    ensures { Inverses }
{}

/// States the worked cases.
pub fn worked_cases()
    ensures { WorkedCases }
{}
