// What document 01 says of the carriers in its own numbers. Nothing is run here: each function's promise is a statement of specs/, so that
// a check fails where its proof is missing.
ghost use Rattle.carriers.specs.Carriers.{CarrierNumbers};

// The carriers are numbered as the paper has them: 0 none, 1 UART, 2 CAN, 3 running.
pub fn carrier_numbers()
    ensures { CarrierNumbers }
{}
