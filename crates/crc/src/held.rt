// What document 01 says of the checksum itself. Nothing is run here: each function's promise is a statement of specs/, so that a check
// fails where its proof is missing.
ghost use Rattle.crc.specs.Crc.{CheckValue};

// The checksum of the nine characters "123456789" is 0x0376E6E7, the value by which anyone can tell this CRC from another.
#[tactic(auto, using(crate::proofs::CheckValue::check_value))]
pub fn check_value()
    ensures { CheckValue }
{}
