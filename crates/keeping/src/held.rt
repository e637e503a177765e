// What is proved of kept memories. Nothing is run here: the function's promise is a statement of specs/, so that a check fails where its proof is
// missing.
ghost use Rattle.keeping.specs.Rulings.{ComesBack};

// Memories are 41,024 bytes, and what is taken down comes back.
pub fn comes_back()
    ensures { ComesBack }
{}
