// Heads: damaged in every field, and of every length about their own.
#[cfg(test)]
mod tests {
    use deliveries::fault::HeadFault;
    use deliveries::fault::HeadFault::{BrokenField, Short, WrongSize};
    use deliveries::head::read_head;
    use std::test::Fail;
    use trials::rows::overwrite;

    // Supplier 0081, 1 January 2026, version 01, no rows.
    const EMPTY: &[u8; 47] = b"30000000000000000000000009207320700812026010101";

    fn fault_of(bytes: &[u8]) -> Option<HeadFault> {
        read_head(bytes).err()
    }

    // The empty head's fault with some columns from `column` on written over.
    fn fault_with(column: usize, text: &[u8]) -> Option<HeadFault> {
        let mut bytes = *EMPTY;
        overwrite(&mut bytes, column, text);
        fault_of(&bytes)
    }

    #[test]
    fn damaged_heads(rt: HostRuntime) {
        let cases: [(usize, &[u8], Option<HeadFault>); 47] = [
            (1, b"3", None),
            (1, b"2", Some(BrokenField(1))),
            (1, b"4", Some(BrokenField(1))),
            (1, b" ", Some(BrokenField(1))),
            (1, b"\x00", Some(BrokenField(1))),
            (2, b"0000000 ", Some(BrokenField(2))),
            (2, b" 0000000", Some(BrokenField(2))),
            (2, b"        ", Some(BrokenField(2))),
            (2, b"0000000A", Some(BrokenField(2))),
            (2, b"00000001", Some(WrongSize)),
            (2, b"99999999", Some(WrongSize)),
            (10, b"04096", Some(WrongSize)),
            (10, b"04097", Some(BrokenField(3))),
            (10, b"99999", Some(BrokenField(3))),
            (10, b"    0", Some(BrokenField(3))),
            (15, b"04096", Some(WrongSize)),
            (15, b"04097", Some(BrokenField(4))),
            (15, b"-0001", Some(BrokenField(4))),
            (20, b"04096", Some(WrongSize)),
            (20, b"04097", Some(BrokenField(5))),
            (20, b"0000/", Some(BrokenField(5))),
            (20, b"0000:", Some(BrokenField(5))),
            (25, b"091", Some(BrokenField(6))),
            (25, b"512", None),
            (25, b"513", Some(BrokenField(6))),
            (28, b"072", Some(BrokenField(7))),
            (28, b"512", None),
            (28, b"513", Some(BrokenField(7))),
            (31, b"206", Some(BrokenField(8))),
            (31, b"208", Some(BrokenField(8))),
            (34, b"0000", None),
            (34, b"9999", None),
            (34, b"008 ", Some(BrokenField(9))),
            (34, b"    ", Some(BrokenField(9))),
            (38, b"20000101", None),
            (38, b"99991231", None),
            (38, b"19991231", Some(BrokenField(10))),
            (38, b"20240229", None),
            (38, b"20230229", Some(BrokenField(10))),
            (38, b"21000229", Some(BrokenField(10))),
            (38, b"20260431", Some(BrokenField(10))),
            (38, b"20260100", Some(BrokenField(10))),
            (38, b"20261301", Some(BrokenField(10))),
            (46, b"00", Some(BrokenField(11))),
            (46, b"99", None),
            (46, b" 1", Some(BrokenField(11))),
            (24, b"1091", Some(BrokenField(6))),
        ];
        for (column, text, fault) in cases {
            assert_eq!(rt; fault_with(column, text), fault);
        }
    }

    // Of two broken fields the first is told.
    #[test]
    fn first_of_two(rt: HostRuntime) -> Result<(), Fail> {
        assert_eq!(rt; fault_with(1, b"0        ").ok_or("read")?, BrokenField(1));
        assert_eq!(rt; fault_with(9, b" 04097").ok_or("read")?, BrokenField(2));
        assert_eq!(rt;
            fault_with(33, b" 00812026130100").ok_or("read")?,
            BrokenField(8)
        );
        Ok(())
    }

    // A head is read at 47 bytes, and at no other length while it tells no rows.
    #[test]
    fn every_length(rt: HostRuntime) {
        let mut bytes = [b'0'; 60];
        overwrite(&mut bytes, 1, EMPTY);
        for length in 0..61usize {
            let expected = match length {
                0..=46 => Some(Short),
                47 => None,
                _ => Some(WrongSize),
            };
            assert_eq!(rt; fault_of(&bytes[0..length]), expected);
        }
    }

    // Rows of all three files count towards the size.
    #[test]
    fn told_and_true_size(rt: HostRuntime) {
        let mut bytes = [b' '; 419];
        let head = b"30000037200001000010000109207320700812026010101";
        overwrite(&mut bytes, 1, head);
        assert_eq!(rt; fault_of(&bytes), None);
        assert_eq!(rt; fault_of(&bytes[0..418]), Some(WrongSize));
        bytes[8] = b'3';
        assert_eq!(rt; fault_of(&bytes), Some(WrongSize));
    }

    #[test]
    fn lines(rt: HostRuntime) -> Result<(), Fail> {
        let heap = rt.alloc();
        let head = read_head(EMPTY)?;
        let told = format!(in heap; "{head}")?;
        assert!(rt;
            told.as_str() == "supplier 0081 day 20260101 version 01 stations 0 series 0 tables 0"
        );
        let lines = [
            (
                Short,
                "1 head - row 0 field 0 record 0 (there are fewer than 47 bytes)",
            ),
            (
                BrokenField(6),
                "2 head - row 0 field 6 record 0 (the station row length is not between 92 and 512)",
            ),
            (
                WrongSize,
                "3 head - row 0 field 2 record 0 (the number of bytes in all rows is not the sum of counts times lengths, or the file is not 47 bytes longer)",
            ),
        ];
        for (fault, line) in lines {
            let told = format!(in heap; "{fault}")?;
            assert!(rt; told.as_str() == line);
        }
        Ok(())
    }
}
