// What document 02, Wish 5, and the worked talk of document 01 say of commands. Nothing is run here: the function's promise is a statement of specs/,
// so that a check fails where its proof is missing.
ghost use Rattle.host.specs.Rulings.{Rulings};

// Commands, the cutting of ranges and the refusals, in the papers' own bytes and numbers.
pub fn rulings()
    ensures { Rulings }
{}
