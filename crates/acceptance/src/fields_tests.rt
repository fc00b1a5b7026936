// Fields: every rule kept and broken, and rows shorter than their table.
#[cfg(test)]
mod tests {
    use fields::bytes::{number, number_in, part};
    use fields::checker::check as check_row;
    use fields::date::Date;
    use fields::fault::FieldFault;
    use fields::fault::FieldFault::{NotAllowed, NotEqual, NotOfType};
    use fields::flags::{KeyFlag, is_amended};
    use fields::rule::FieldType::{Alphanumeric, Numeric};
    use fields::rule::Need::{Mandatory, Optional};
    use fields::rule::{Content, Context, Field, FieldType, Need};
    use fields::text::Text;
    use std::test::Fail;

    // The fault of field 7 in columns 3 to 2 + width of a row of supplier 0081 and number 1000.
    fn fault_of(
        holds: FieldType,
        need: Need,
        content: Content,
        width: u8,
        key_flag: KeyFlag,
        row: &[u8],
    ) -> Option<FieldFault> {
        let field = Field {
            number: 7,
            first: 3,
            last: 2 + u16::from(width),
            holds,
            need,
            content,
        };
        let context = Context {
            supplier: 81,
            number: 1000,
            key_flag,
        };
        check_row(&[field], &context, row).err()
    }

    #[test]
    fn types(rt: HostRuntime) {
        let cases: [(FieldType, Need, &[u8], Option<FieldFault>); 22] = [
            (Numeric, Mandatory, b"  0909", None),
            (Numeric, Mandatory, b"  09 9", Some(NotOfType(7))),
            (Numeric, Mandatory, b"      ", Some(NotOfType(7))),
            (Numeric, Mandatory, b"  090A", Some(NotOfType(7))),
            (Numeric, Mandatory, b"  090", Some(NotOfType(7))),
            (Numeric, Mandatory, b"  ", Some(NotOfType(7))),
            (Numeric, Mandatory, b"", Some(NotOfType(7))),
            (Numeric, Optional, b"      ", None),
            (Numeric, Optional, b"  0000", None),
            (Numeric, Optional, b"    00", Some(NotOfType(7))),
            (Numeric, Optional, b"     ", Some(NotOfType(7))),
            (Alphanumeric, Mandatory, b"  A  B", None),
            (Alphanumeric, Mandatory, b"  \xa0\xff~!", None),
            (Alphanumeric, Mandatory, b"  A\x7f  ", Some(NotOfType(7))),
            (Alphanumeric, Mandatory, b"  A\x9f  ", Some(NotOfType(7))),
            (Alphanumeric, Mandatory, b"  A\x1f  ", Some(NotOfType(7))),
            (Alphanumeric, Mandatory, b"   AB ", Some(NotOfType(7))),
            (Alphanumeric, Mandatory, b"      ", Some(NotOfType(7))),
            (Alphanumeric, Optional, b"      ", None),
            (Alphanumeric, Optional, b"   AB ", Some(NotOfType(7))),
            (Alphanumeric, Optional, b"  AB", Some(NotOfType(7))),
            (Alphanumeric, Optional, b"  ABCDE", None),
        ];
        for (holds, need, row, fault) in cases {
            assert_eq!(rt;
                fault_of(holds, need, Content::Any, 4, KeyFlag::NoAmendment, row),
                fault
            );
        }
    }

    #[test]
    fn numbers_allowed(rt: HostRuntime) {
        let cases: [(Need, Content, &[u8], Option<FieldFault>); 14] = [
            (Mandatory, Content::Between(1, 3), b"--0001", None),
            (Mandatory, Content::Between(1, 3), b"--0003", None),
            (
                Mandatory,
                Content::Between(1, 3),
                b"--0000",
                Some(NotAllowed(7)),
            ),
            (
                Mandatory,
                Content::Between(1, 3),
                b"--0004",
                Some(NotAllowed(7)),
            ),
            (
                Mandatory,
                Content::Between(1, 3),
                b"--000 ",
                Some(NotOfType(7)),
            ),
            (
                Mandatory,
                Content::Between(1000, 9999),
                b"--0999",
                Some(NotAllowed(7)),
            ),
            (Mandatory, Content::Between(1000, 9999), b"--1000", None),
            (Optional, Content::ZeroOrFrom(1000), b"--0000", None),
            (Optional, Content::ZeroOrFrom(1000), b"--    ", None),
            (
                Optional,
                Content::ZeroOrFrom(1000),
                b"--0001",
                Some(NotAllowed(7)),
            ),
            (
                Optional,
                Content::ZeroOrFrom(1000),
                b"--0999",
                Some(NotAllowed(7)),
            ),
            (Optional, Content::ZeroOrFrom(1000), b"--1000", None),
            (Mandatory, Content::Supplier, b"--0081", None),
            (Mandatory, Content::Supplier, b"--0082", Some(NotEqual(7))),
        ];
        for (need, content, row, fault) in cases {
            assert_eq!(rt;
                fault_of(Numeric, need, content, 4, KeyFlag::NoAmendment, row),
                fault
            );
        }
    }

    #[test]
    fn flags_allowed(rt: HostRuntime) {
        let cases: [(Need, KeyFlag, &[u8], Option<FieldFault>); 11] = [
            (Mandatory, KeyFlag::NoAmendment, b"--0", None),
            (Mandatory, KeyFlag::NoAmendment, b"--3", None),
            (Mandatory, KeyFlag::NoAmendment, b"--1", Some(NotAllowed(7))),
            (Mandatory, KeyFlag::NoAmendment, b"-- ", Some(NotOfType(7))),
            (Mandatory, KeyFlag::New, b"--0", None),
            (Mandatory, KeyFlag::New, b"--3", Some(NotAllowed(7))),
            (Mandatory, KeyFlag::Deletion, b"--3", Some(NotAllowed(7))),
            (Mandatory, KeyFlag::Deletion, b"--0", None),
            (Optional, KeyFlag::NoAmendment, b"-- ", None),
            (Optional, KeyFlag::New, b"-- ", None),
            (Optional, KeyFlag::New, b"--3", Some(NotAllowed(7))),
        ];
        for (need, key_flag, row, fault) in cases {
            assert_eq!(rt;
                fault_of(Numeric, need, Content::Amendment, 1, key_flag, row),
                fault
            );
        }
    }

    #[test]
    fn texts_allowed(rt: HostRuntime) {
        let cases: [(Need, Content, u8, &[u8], Option<FieldFault>); 16] = [
            (Mandatory, Content::Capitals, 3, b"--EUR", None),
            (Mandatory, Content::Capitals, 3, b"--AZA", None),
            (
                Mandatory,
                Content::Capitals,
                3,
                b"--EuR",
                Some(NotAllowed(7)),
            ),
            (
                Mandatory,
                Content::Capitals,
                3,
                b"--EU@",
                Some(NotAllowed(7)),
            ),
            (
                Mandatory,
                Content::Capitals,
                3,
                b"--EU[",
                Some(NotAllowed(7)),
            ),
            (
                Mandatory,
                Content::Capitals,
                3,
                b"-- EU",
                Some(NotOfType(7)),
            ),
            (Mandatory, Content::PlainText, 3, b"--A ~", None),
            (
                Mandatory,
                Content::PlainText,
                3,
                b"--A\xe4~",
                Some(NotAllowed(7)),
            ),
            (
                Mandatory,
                Content::PlainText,
                3,
                b"--A\x7f~",
                Some(NotOfType(7)),
            ),
            (Optional, Content::Sign(b'+'), 1, b"--+", None),
            (Optional, Content::Sign(b'+'), 1, b"-- ", None),
            (
                Optional,
                Content::Sign(b'+'),
                1,
                b"--B",
                Some(NotAllowed(7)),
            ),
            (
                Optional,
                Content::Sign(b'+'),
                1,
                b"--\x80",
                Some(NotOfType(7)),
            ),
            (Mandatory, Content::FileName, 8, b"--10000081", None),
            (
                Mandatory,
                Content::FileName,
                8,
                b"--00811000",
                Some(NotEqual(7)),
            ),
            (
                Mandatory,
                Content::FileName,
                8,
                b"-- 0000081",
                Some(NotOfType(7)),
            ),
        ];
        for (need, content, width, row, fault) in cases {
            assert_eq!(rt;
                fault_of(
                    Alphanumeric,
                    need,
                    content,
                    width,
                    KeyFlag::NoAmendment,
                    row,
                ),
                fault
            );
        }
    }

    // The first field of the table that is at fault is told, not the first by column.
    #[test]
    fn first_of_a_table(rt: HostRuntime) {
        let context = Context {
            supplier: 81,
            number: 1000,
            key_flag: KeyFlag::NoAmendment,
        };
        let table = [
            Field {
                number: 1,
                first: 1,
                last: 4,
                holds: Numeric,
                need: Mandatory,
                content: Content::Supplier,
            },
            Field {
                number: 2,
                first: 9,
                last: 9,
                holds: Numeric,
                need: Mandatory,
                content: Content::Any,
            },
            Field {
                number: 3,
                first: 5,
                last: 8,
                holds: Numeric,
                need: Mandatory,
                content: Content::Between(1, 5),
            },
        ];
        assert_eq!(rt; check_row(&table, &context, b"008100051"), Ok(()));
        assert_eq!(rt;
            check_row(&table, &context, b"00810009A"),
            Err(NotOfType(2))
        );
        assert_eq!(rt;
            check_row(&table, &context, b"008100091"),
            Err(NotAllowed(3))
        );
        assert_eq!(rt; check_row(&table, &context, b"00820009A"), Err(NotEqual(1)));
        assert_eq!(rt; check_row(&table, &context, b"00810"), Err(NotOfType(2)));
        assert_eq!(rt; check_row(&[], &context, b""), Ok(()));
    }

    #[test]
    fn values(rt: HostRuntime) {
        let numbers: [(&[u8], u64); 7] = [
            (b"", 0),
            (b"0000", 0),
            (b"    ", 0),
            (b"0081", 81),
            (b"99999999", 99999999),
            (b"18446744073709551615", 18446744073709551615),
            (b"18446744073709551616", 18446744073709551615),
        ];
        for (bytes, value) in numbers {
            assert_eq!(rt; number(bytes), value);
        }
        assert_eq!(rt; number_in(b"1234567890", 2, 5), 2345);
        assert_eq!(rt; number_in(b"1234567890", 9, 12), 90);
        assert_eq!(rt; number_in(b"9999999999", 1, 10), 4294967295);
        assert_eq!(rt; part(b"1234567890", 10, 9).len(), 0);
        assert_eq!(rt; KeyFlag::read(b"1"), KeyFlag::New);
        assert_eq!(rt; KeyFlag::read(b"2"), KeyFlag::Deletion);
        assert_eq!(rt; KeyFlag::read(b"0"), KeyFlag::NoAmendment);
        assert!(rt; is_amended(b"3") && !is_amended(b"0") && !is_amended(b" "));
    }

    #[test]
    fn texts(rt: HostRuntime) {
        let erfurt: Text<6> = Text::read(b"Erfurt");
        let hof: Text<6> = Text::read(b"Hof   ");
        assert!(rt; erfurt < hof && erfurt != hof && erfurt == Text::read(b"Erfurt Hbf"));
        assert!(rt; Text::<3>::read(b"\xe4  ") > Text::<3>::read(b"z  "));
        assert!(rt; Text::<3>::read(b"Ab") == Text::<3>::read(b"   "));
    }

    #[test]
    fn days(rt: HostRuntime) {
        let cases: [(&[u8], bool); 12] = [
            (b"20000101", true),
            (b"20000229", true),
            (b"20240229", true),
            (b"20230229", false),
            (b"21000229", false),
            (b"24000229", true),
            (b"20261231", true),
            (b"20261232", false),
            (b"20260631", false),
            (b"20260630", true),
            (b"2026 1 1", false),
            (b"202601010", false),
        ];
        for (bytes, real) in cases {
            assert_eq!(rt; Date::read(bytes).is_some(), real);
        }
        assert!(rt; Date::read(b"20251231") < Date::read(b"20260101"));
        assert_eq!(rt; Date::new(2026, 5, 30), Date::read(b"20260530"));
        assert_eq!(rt; Date::new(65536 + 2026, 5, 30), None);
    }

    #[test]
    fn lines(rt: HostRuntime) -> Result<(), Fail> {
        let heap = rt.alloc();
        let lines = [
            (
                NotOfType(11),
                "4 field - row 0 field 11 record 0 (the field is not of its type, or it is mandatory and blank)",
            ),
            (
                NotAllowed(2),
                "5 field - row 0 field 2 record 0 (the field holds a content that is not allowed)",
            ),
            (
                NotEqual(1),
                "6 field - row 0 field 1 record 0 (the field is not equal to the head's supplier or to the composed file name)",
            ),
        ];
        for (fault, line) in lines {
            let told = format!(in heap; "{fault}")?;
            assert!(rt; told.as_str() == line);
        }
        Ok(())
    }
}
