// Worked examples, proved of the definitions: what is apart, and what LOCK answers in transcripts of lock calls. The function does
// nothing: its contract carries them.
ghost use Rattle.keeper.specs.Examples.{Examples};

pub fn examples_stand()
    ensures { Examples }
{}
