// Octets as text, for the programs.
#![tactic(auto)]

ghost use Rattle.std.specs.Prelude.{Some};
ghost use Rattle.ie_text.specs.Hex.{hex_octet};

use std::fmt;

#[derive(Clone, Copy)]
pub struct HexOctet(pub u8);

// By hand, since a derived one promises nothing of its text.
impl fmt::Display for HexOctet {
    ghost output = { λ x. Some (hex_octet x.0) };

    #[tactic(auto, using(std::proofs::lemmas::Fmt::hex_byte))]
    fn fmt<W: fmt::Write>(&self, f: &mut fmt::Formatter<W>) -> fmt::Result {
        let octet = self.0;
        write!(f, "{octet:02X}")
    }
}

#[cfg(test)]
mod tests {
    use super::HexOctet;
    use std::test::Fail;

    #[test]
    fn every_octet_is_written(rt: HostRuntime) -> Result<(), Fail> {
        for octet in 0..256u16 {
            let text = HexOctet((octet & 0xff) as u8).to_string(rt.alloc())?;
            assert_eq!(rt; text.len(), 2);
        }
        assert_eq!(rt; HexOctet(0x0f).to_string(rt.alloc())?.as_str(), "0F");
        Ok(())
    }
}
