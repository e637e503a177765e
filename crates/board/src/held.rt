// What document 01, "The board on the desk", says in its own numbers. Nothing is run here: each function's promise is a statement of
// specs/, so that a check fails where its proof is missing.
ghost use Rattle.board.specs.Rulings.{Rulings, ByItsBits};

// Flash, SRAM and user system data lie where the table has them, no byte more and none before; the flash has 32 sectors of 1,024 bytes.
pub fn rulings()
    ensures { Rulings }
{}

// The board is locked unless byte 0 of user system data is 0xA5, and sector k is write-protected where bit k mod 8 of byte 8 + k/8 is 0.
pub fn by_its_bits()
    ensures { ByItsBits }
{}
