// What a reader finds, written out. Nothing is run here: the function's promise is a statement of specs/, so that a check fails where its
// proof is missing.
ghost use Rattle.reader.specs.Rulings.{Rulings};

// Three lines of a text, and its end, are found as they are written out.
pub fn rulings()
    ensures { Rulings }
{}
