// What document 01 rules of the CAN conversation, and document 02 of its reasons. Nothing is run here: each function's promise is a statement
// of specs/, so that a check fails where its proof is missing.
ghost use Rattle.can.specs.Rulings.{Rulings, StepRulings};
ghost use Rattle.can.specs.Tests.{FirstReasons};

// Every command and every step of the CAN conversation, given frames of the paper, is answered as the paper answers it, the refusals too.
pub fn rulings()
    ensures { Rulings }
{}

// The steps of CAN have the paper's order and expect the paper's numbers of bytes, and a list's X is read back from what it expects.
pub fn steps()
    ensures { StepRulings }
{}

// Each frame of CAN is tested for the reasons that document 02 gives its command or step and no others, and of those that refuse the first there is given.
pub fn first_reasons()
    ensures { FirstReasons }
{}
