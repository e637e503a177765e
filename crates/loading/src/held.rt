// What document 02, Wish 1, says of a file and an image, beyond the promises of the calls. Nothing is run here: each function's promise is a
// statement of specs/, so that a check fails where its proof is missing.
ghost use Rattle.loading.specs.Says.{AcceptedLoads, ErrorLeaves, Apart, MarkedExactly};
ghost use Rattle.loading.specs.Faults.{CauseNumbers, AcceptedExactly, FirstFaulty};
ghost use Rattle.loading.specs.Promise.{Determined};
ghost use Rattle.loading.specs.Rulings.{Rulings};

// The bytes of an accepted file stand where its lines say, and every other byte of the image stays.
pub fn accepted_loads()
    ensures { AcceptedLoads }
{}

// A file that is not accepted leaves every byte of the image.
pub fn error_leaves()
    ensures { ErrorLeaves }
{}

// No byte of flash is touched by two lines of an accepted file.
pub fn apart()
    ensures { Apart }
{}

// The marks that lines leave stand at exactly the bytes that one of them touches.
pub fn marked_exactly()
    ensures { MarkedExactly }
{}

// The causes are numbered from 0 for an accepted file to 6 for one without an ending record.
pub fn cause_numbers()
    ensures { CauseNumbers }
{}

// A file is accepted exactly when the image has 32,768 bytes, no line is faulty and an ending record is there.
pub fn accepted_exactly()
    ensures { AcceptedExactly }
{}

// Wrong image length first; then the first faulty line decides, by the first cause that it has; last, no ending record.
pub fn first_faulty()
    ensures { FirstFaulty }
{}

// Two outcomes of `load` that both keep its promise are the same.
pub fn determined()
    ensures { Determined }
{}

// Small files are accepted or refused as they must be, by the line and the cause that they must be.
pub fn rulings()
    ensures { Rulings }
{}
