// What is said of files, written out. Nothing is run here: the function's promise is a statement of specs/, so that a check fails where its
// proof is missing.
ghost use Rattle.image_says.specs.Rulings.{Messages};

// Of each cause, and of one byte and of several, the whole line is said as it is written out.
pub fn messages()
    ensures { Messages }
{}
