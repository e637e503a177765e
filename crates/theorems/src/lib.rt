// What is proved of the definitions, and of whatever keeps the calls' promises. Nothing is run here: each function's promise is a statement of specs/,
// so that a check fails where its proof is missing.
#![tactic(auto)]

ghost use Rattle.theorems.specs.Talk.{WorkedTalk};
ghost use Rattle.theorems.specs.Longest.{NoLongerCommand};
ghost use Rattle.theorems.specs.Reasons.{ReasonsAndPlaces};
ghost use Rattle.theorems.specs.Secrecy.{OpensExactly, StruckExactly, Demand3};
ghost use Rattle.theorems.specs.Runs.{RunsOnce, Demand3OfCode};
ghost use Rattle.theorems.specs.Slices.{SlicesAreRuns};
ghost use Rattle.theorems.specs.Determined.{Determined};
ghost use Rattle.theorems.specs.Failures.{OnlyNamedBytes, EraseAllOrNothing, NeverRead, ExactlyNamed, OnTheWire};

// Every starred row of the worked talk is answered as the paper has it.
pub fn worked_talk()
    ensures { WorkedTalk }
{}

// No command on UART takes over 265 bytes to its last answer, and a write of 256 bytes takes as many.
pub fn no_longer_command()
    ensures { NoLongerCommand }
{}

// The reason of a call is the first of those whose tests refuse; its place is counted from the first byte of the command, on CAN by what was gathered.
pub fn reasons_and_places()
    ensures { ReasonsAndPlaces }
{}

// Demand 3: two locked boards, given the same calls, leave the same to be seen until an obeyed Access Unprotect, and the same in everything after it.
pub fn demand_three()
    ensures { Demand3 }
{}

// Calls that keep their promises leave what the definitions say, and for any calls there are such results.
pub fn runs_once()
    ensures { RunsOnce }
{}

// Demand 3 of the code: the same of whatever its calls hand back and leave, where each keeps its promise.
pub fn demand_three_of_code()
    ensures { Demand3OfCode }
{}

// The call of a slice leaves the board that the calls of its bytes leave one by one, and their replies joined.
pub fn slices_are_runs()
    ensures { SlicesAreRuns }
{}

// Which inputs are an obeyed Access Unprotect: 0x92, and on UART its complement behind it, to an idle session in a call that is accepted.
pub fn opens_exactly()
    ensures { OpensExactly }
{}

// Where the four value bytes of a CRC answer are struck out: where the last input of a Firmware CRC is accepted and its reply begins with ACK.
pub fn struck_exactly()
    ensures { StruckExactly }
{}

// Two outcomes that keep a call's promise are equal.
pub fn determinism()
    ensures { Determined }
{}

// Failure (a): a write changes at most the bytes it names.
pub fn only_named_bytes()
    ensures { OnlyNamedBytes }
{}

// Failure (b): a refused erase leaves every byte.
pub fn erase_all_or_nothing()
    ensures { EraseAllOrNothing }
{}

// Failure (c): a locked board never decides to read.
pub fn never_read()
    ensures { NeverRead }
{}

// Failure (d): after an accepted 0x63 exactly the named sectors are protected.
pub fn exactly_named()
    ensures { ExactlyNamed }
{}

// A host sees a NACK, or the ACK to a list of sectors, exactly where the board has refused, or has accepted.
pub fn on_the_wire()
    ensures { OnTheWire }
{}
