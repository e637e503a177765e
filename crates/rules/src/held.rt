// What document 01 rules of single commands. Nothing is run here: each function's promise is a statement of specs/, so that a check fails
// where its proof is missing.
ghost use Rattle.rules.specs.Rulings.{Ruled, rulings};

// Reads, writes, erases, protection, jumps and checksums at the edges of what is allowed are decided as the paper decides them.
pub fn rulings()
    ensures { Ruled rulings }
{}
