// What document 01 rules of the UART conversation, and document 02 of its reasons. Nothing is run here: each function's promise is a statement
// of specs/, so that a check fails where its proof is missing.
ghost use Rattle.uart.specs.Rulings.{Rulings, StepRulings, PlaceRulings};
ghost use Rattle.uart.specs.Tests.{FirstReasons};

// Every step of the UART conversation, given bytes of the paper, is answered as the paper answers it, the checksums and the refusals too.
pub fn rulings()
    ensures { Rulings }
{}

// The steps of UART have the paper's order and expect the paper's numbers of bytes, and a step's X is read back from what it expects.
pub fn steps()
    ensures { StepRulings }
{}

// Each step of UART tests the reasons that document 02 gives it and no others, and of those whose tests refuse gives the one that comes first there.
pub fn first_reasons()
    ensures { FirstReasons }
{}

// Each step of UART that may refuse does so at the wire byte of the command that document 02 counts to, in numbers.
pub fn places()
    ensures { PlaceRulings }
{}
