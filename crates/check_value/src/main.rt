// Prints the checksum of "123456789" in hex: the public check value of CRC-32/MPEG-2.
#![tactic(auto)]

fn main(rt: HostRuntime) {
    let value = crc::crc(b"123456789");
    let _ = print!(rt; "{value:08x}");
}
