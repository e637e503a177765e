// What ST's dialect changes, written out. Nothing is run here: the function's promise is a statement of specs/, so that a check fails where its proof
// is missing.
ghost use Rattle.port_loop.specs.Rulings.{StSays};

// Two replies are said as they are written out, and others as they are.
pub fn st_says()
    ensures { StSays }
{}
