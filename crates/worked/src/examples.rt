ghost use Rattle.worked.specs.Examples.{examples, AllHold, AllPossible};

// The worked examples hold of the arithmetics, of the plans of powers and of what an array means, and there
// are such places.
pub fn worked_examples()
    ensures hold { AllHold examples }
    ensures possible { AllPossible }
{}
