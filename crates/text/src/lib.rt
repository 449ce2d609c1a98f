//! Words, lines and numbers of the texts that the programs read and write.
#![tactic(auto)]

pub mod hex;
pub mod lines;
pub mod place;
pub mod words;

#[cfg(test)]
mod tests {
    use crate::hex::{self, Digits, Hex};
    use std::test::Fail;

    #[test]
    fn numbers(rt: HostRuntime) {
        assert!(rt; hex::number(b"", 9).is_none());
        assert!(rt; hex::number(b"0", 0) == Some(0));
        assert!(rt; hex::number(b"FF", 254).is_none());
        assert!(rt; hex::number(b"00FF", 255) == Some(255));
        assert!(rt; hex::number(b"fF", 255).is_none());
        assert!(rt; hex::number(b"FFFFFFFFFFFFFFFF", u64::MAX) == Some(u64::MAX));
        assert!(rt; hex::number(b"00000000000000001", u64::MAX).is_none());
    }

    #[test]
    fn texts(rt: HostRuntime) -> Result<(), Fail> {
        let heap = rt.alloc();
        assert!(rt; Hex(0).to_string(heap)?.as_str() == "0");
        assert!(rt; Hex(u64::MAX).to_string(heap)?.as_str() == "FFFFFFFFFFFFFFFF");
        let digits = Digits {
            count: 4,
            value: 0x12A,
        };
        assert!(rt; digits.to_string(heap)?.as_str() == "012A");
        Ok(())
    }
}
