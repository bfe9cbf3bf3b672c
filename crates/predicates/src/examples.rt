// Worked examples of what is apart, proved of the definitions. The function does nothing: its contract
// carries them. Three crates have one, since a crate sees only its own examples and those of the crates below it.
ghost use Rattle.predicates.specs.Examples.{Examples};

#[tactic(auto, using(crate::proofs::Worked::examples))]
pub fn examples_stand()
    ensures { Examples }
{}
