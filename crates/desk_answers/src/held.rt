// What is proved of the program desk as a whole. Nothing is run here: each function's promise is a statement of specs/, so that a check
// fails where its proof is missing.
ghost use Rattle.desk_answers.specs.Desk.{DeskPrints};
ghost use Rattle.desk_answers.specs.Example.{Example, ExampleWhy};
ghost use Rattle.desk_answers.specs.Why.{InItsWords};

// However an input is cut into reads, desk prints what the paper says of its lines.
pub fn desk_prints()
    ensures { DeskPrints }
{}

// The paper's example, whole: five lines typed, and the five lines that are printed.
pub fn example()
    ensures { Example }
{}

// What desk says of a reason are document 02's words for it.
pub fn in_its_words()
    ensures { InItsWords }
{}

// Asked for reasons, desk says behind the answer to a line why each NACK in it came, and where.
pub fn example_why()
    ensures { ExampleWhy }
{}
