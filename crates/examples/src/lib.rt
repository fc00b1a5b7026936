// The worked examples, proved together.
#![tactic(auto)]

ghost use Rattle.examples.specs.Worked.{Examples};

// Does nothing; its contract is the statement of all worked examples.
pub fn examples_hold()
    ensures { Examples }
{}
