// What document 02 says of the bench board's checksum. Nothing is run here: each function's promise is a statement of specs/, so that a
// check fails where its proof is missing.
ghost use Rattle.word_crc.specs.Words.{HighestByteFirst, FoldOfWords, OutsideValues};

// The bytes of whole words go in as little-endian words, each from its highest byte down.
#[tactic(auto, using(crate::proofs::Words::highest_byte_first))]
pub fn highest_byte_first()
    ensures { HighestByteFirst }
{}

// The checksum is what the bench board's unit does: a fold of whole words over the little-endian words.
#[tactic(auto, using(crate::proofs::Words::fold_of_words))]
pub fn fold_of_words()
    ensures { FoldOfWords }
{}

// The checksum of one word and that of a sector that holds 00 01 .. FF over and over are what programs of others give (expected/crc.md).
#[tactic(auto, using(crate::proofs::OutsideValues::outside_values))]
pub fn outside_values()
    ensures { OutsideValues }
{}
