// The worked examples.
ghost use Rattle.figures.specs.Ceiling.{WorkedExamples};
ghost use Rattle.machine.specs.Examples.{Worked, Emptied, Then, Makings};

// The machine prints the lines of the worked examples, comes to their eras, births and counts, is made or
// refused as they say, and has their ceilings.
pub fn worked_examples()
    ensures lines { Worked }
    ensures emptied { Emptied }
    ensures states { Then }
    ensures makings { Makings }
    ensures ceilings { WorkedExamples }
{}
