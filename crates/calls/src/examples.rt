// Worked examples, proved of the definitions: what is apart, and what calls are answered. The function does nothing: its contract
// carries them. Three crates have one, since a crate sees only its own examples and those of the crates below it.
ghost use Rattle.calls.specs.Examples.{Examples};

pub fn examples_stand()
    ensures { Examples }
{}
