// What document 01 says of the commands in its own hex, and of the bytes that they gather, and document 02 of Firmware CRC. Nothing is run
// here: each function's promise is a statement of specs/, so that a check fails where its proof is missing.
ghost use Rattle.command.specs.BenchBoard.{WordsOfFlash};
ghost use Rattle.command.specs.Numbers.{Numbers};
ghost use Rattle.command.specs.Progress.{Staging};

// Each carrier's list of commands is the paper's, each command is found by its own number, and 0x01 and 0x02 tell the paper's bytes.
pub fn numbers()
    ensures { Numbers }
{}

// A step takes each byte to its own place and only as many as it expects: whatever else a frame carries is not kept, and no other byte changes.
pub fn staging()
    ensures { Staging }
{}

// Of whole sectors Firmware CRC tells what the bench board's unit does: a fold of whole words over the little-endian words of flash.
pub fn words_of_flash()
    ensures { WordsOfFlash }
{}
