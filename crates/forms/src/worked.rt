// Examples that ringers know, established from the definitions.
ghost use Rattle.forms.specs.Worked.{WorkedExamples};
ghost use Rattle.std.specs.Prelude.{◌≡◌, true};

// The codes of 2143, 1342, 4321 and 132546, the card's entry 252, the places of a run, two changes that cannot be rung, Plain Bob Minimus
// and Minor, and Grandsire Doubles with its two endings.
pub fn worked_examples_hold() -> bool
    ensures { (result ≡ true) × WorkedExamples }
{
    true
}
