// What each change of the memories means. Nothing is run here: each function's promise is a statement of specs/, so that a check fails
// where its proof is missing.
ghost use Rattle.memories.specs.Meaning.{Meaning};

// Every byte of flash, SRAM and user system data after a write, an erase, 0x63, 0x73, 0x82 and 0x92, and which of them stay.
pub fn effects()
    ensures { Meaning }
{}
