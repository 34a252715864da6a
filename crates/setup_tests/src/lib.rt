// Set-up lists with the exact verdict on each.
#![tactic(auto)]

#[cfg(test)]
mod tests {
    use fault::{Cause, Fault, Place};
    use form::Line;
    use setup::check_list;
    use setup::reader::{Entry, Reader, Text};
    use std::alloc::{AllocError, Global};
    use std::test::Fail;

    // Each of these has one of the four forms.
    const FORMED: [&[u8]; 10] = [
        b"w 28 60 A5",
        b"w 00 FF 00",
        b"w FF 00 9A",
        b"f 28 0",
        b"f 2F 9",
        b"# ",
        b"# t 0000",
        b"#  ~!",
        b"f AB 5",
        b"w CD EF 01",
    ];

    // Each of these has none.
    const FORMLESS: [&[u8]; 44] = [
        b"",
        b" ",
        b"w",
        b"f",
        b"#",
        b"t",
        b"x 28 60 A5",
        b"W 28 60 A5",
        b" w 28 60 A5",
        b"w 28 60 A5 ",
        b"w 28 60 A5\r",
        b"w 28 60",
        b"w 28 60 A",
        b"w 28 60 A50",
        b"w  28 60 A5",
        b"w 28  60 A5",
        b"w\t28 60 A5",
        b"w 28\t60 A5",
        b"w 28 60\tA5",
        b"w 28 60 a5",
        b"w 2g 60 A5",
        b"w 28 6G A5",
        b"w 28 60 /5",
        b"w 28 60 :5",
        b"w 28 60 @5",
        b"w 28 60 \x005",
        b"w 28 60 \xFF5",
        b"f 28",
        b"f 28 ",
        b"f 28 12",
        b"f 28 A",
        b"f 28  2",
        b"f 2a 2",
        b"f\t28 2",
        b"f 28\t2",
        b"f 28 /",
        b"f 28 :",
        b"#x",
        b"#\tx",
        b"# \x1F",
        b"# \x7F",
        b"# \x80",
        b"\0",
        b"\r",
    ];

    // Whole lists, each with its fault, and the number and offset of the line that has it.
    const FAULTY: [(&[u8], Cause, Option<(usize, usize)>); 22] = [
        (b"", Cause::NoTrailer, None),
        (b"\n", Cause::NoTrailer, None),
        (b"t", Cause::NoTrailer, None),
        (b"t 000", Cause::NoTrailer, None),
        (b"t 00000", Cause::NoTrailer, None),
        (b"t  0000", Cause::NoTrailer, None),
        (b"t\t0000", Cause::NoTrailer, None),
        (b"t 0000\r\n", Cause::NoTrailer, None),
        (b"# 345678\nt 000a", Cause::NoTrailer, None),
        (b"w 28 60 A5\n", Cause::NoTrailer, None),
        (b"w 28 60 A5\nt 000B\n\n", Cause::NoTrailer, None),
        (b"x\nw 28 60 A5", Cause::NoTrailer, None),
        (b"t 0001", Cause::TrailerCount, Some((1, 0))),
        (b"w 28 60 A5\nt 000A\n", Cause::TrailerCount, Some((2, 11))),
        (b"w 28 60 A5\nt 000C", Cause::TrailerCount, Some((2, 11))),
        (b"x\nt 0003", Cause::TrailerCount, Some((2, 2))),
        (b"\nt 0001", Cause::NoForm, Some((1, 0))),
        (b"x\nw\nt 0004", Cause::NoForm, Some((1, 0))),
        (b"# \n\xFF\nx\nt 0007", Cause::NoForm, Some((2, 3))),
        (b"t 0000\nt 0007\n", Cause::NoForm, Some((1, 0))),
        (
            b"w 28 60 A5\nt 000B\nf 28 2\nt 0019\n",
            Cause::NoForm,
            Some((2, 11)),
        ),
        (b"f 28 2\n\nt 0008", Cause::NoForm, Some((2, 7))),
    ];

    // The second line of what `amid` makes has no form.
    const FORMLESS_AMID: Result<(), Fault> = Err(Fault {
        cause: Cause::NoForm,
        place: Some(Place {
            line: 2,
            offset: 11,
        }),
    });

    fn entry(line: usize, offset: usize, says: Line<'_>) -> Option<Result<Entry<'_>, Fault>> {
        Some(Ok(Entry {
            place: Place { line, offset },
            line: says,
        }))
    }

    fn add_trailer(heap: Global, list: &mut Vec<u8>) -> Result<(), AllocError> {
        let count = list.len();
        let trailer = format!(in heap; "t {count:04X}")?;
        list.extend_from_slice(trailer.as_bytes())
    }

    // The line between a write and the trailer.
    fn amid(heap: Global, line: &[u8]) -> Result<Vec<u8>, AllocError> {
        let mut list = b"w 28 60 A5\n".to_vec(heap)?;
        list.extend_from_slice(line)?;
        list.push(b'\n')?;
        add_trailer(heap, &mut list)?;
        Ok(list)
    }

    // Remarks of 63 bytes with their newline, one of `last` bytes, and the trailer.
    fn filled(heap: Global, last: usize) -> Result<Vec<u8>, AllocError> {
        let mut list = Vec::new(heap);
        for _ in 0..389 {
            list.extend_from_slice(
                b"# 012345678901234567890123456789012345678901234567890123456789\n",
            )?;
        }
        list.extend_from_slice(b"# ")?;
        for _ in 3..last {
            list.push(b'.')?;
        }
        list.push(b'\n')?;
        add_trailer(heap, &mut list)?;
        Ok(list)
    }

    #[test]
    fn formed_lines_are_taken(rt: HostRuntime) -> Result<(), Fail> {
        for line in FORMED {
            let mut list = amid(rt.alloc(), line)?;
            assert_eq!(rt; check_list(&list), Ok(()));
            list.push(b'\n')?;
            assert_eq!(rt; check_list(&list), Ok(()));
        }
        Ok(())
    }

    #[test]
    fn formless_lines_are_named(rt: HostRuntime) -> Result<(), Fail> {
        for line in FORMLESS {
            let mut list = amid(rt.alloc(), line)?;
            assert_eq!(rt; check_list(&list), FORMLESS_AMID);
            list.push(b'\n')?;
            assert_eq!(rt; check_list(&list), FORMLESS_AMID);
        }
        Ok(())
    }

    #[test]
    fn faults_come_in_order(rt: HostRuntime) {
        for (list, cause, place) in FAULTY {
            let place = place.map(|(line, offset)| Place { line, offset });
            assert_eq!(rt; check_list(list), Err(Fault { cause, place }));
        }
    }

    #[test]
    fn remarks_have_sixty_bytes(rt: HostRuntime) -> Result<(), Fail> {
        let mut line = b"# ".to_vec(rt.alloc())?;
        for _ in 0..60 {
            line.push(b'r')?;
        }
        assert_eq!(rt; check_list(&amid(rt.alloc(), &line)?), Ok(()));
        line.push(b'r')?;
        assert_eq!(rt; check_list(&amid(rt.alloc(), &line)?), FORMLESS_AMID);
        Ok(())
    }

    #[test]
    fn lists_have_24576_bytes(rt: HostRuntime) -> Result<(), Fail> {
        let mut list = filled(rt.alloc(), 63)?;
        assert_eq!(rt; list.len(), 24_576);
        assert_eq!(rt; check_list(&list), Ok(()));
        list.push(b'\n')?;
        let too_long = Fault {
            cause: Cause::ListTooLong,
            place: None,
        };
        assert_eq!(rt; check_list(&list), Err(too_long));
        let mut shorter = filled(rt.alloc(), 62)?;
        shorter.push(b'\n')?;
        assert_eq!(rt; shorter.len(), 24_576);
        assert_eq!(rt; check_list(&shorter), Ok(()));
        Ok(())
    }

    #[test]
    fn entries_have_their_places(rt: HostRuntime) {
        let mut reader = Reader::new(b"# hello\nw 28 60 A5\nf 29 1\nt 001A");
        assert_eq!(rt; reader.next(), entry(1, 0, Line::Remark(b"hello")));
        let write = Line::Write {
            unit: 0x28,
            register: 0x60,
            byte: 0xa5,
        };
        assert_eq!(rt; reader.next(), entry(2, 8, write));
        let fans = Line::Fans {
            unit: 0x29,
            count: 1,
        };
        assert_eq!(rt; reader.next(), entry(3, 19, fans));
        assert_eq!(rt; reader.next(), entry(4, 26, Line::Trailer(26)));
        assert_eq!(rt; reader.next(), None);
    }

    #[test]
    fn texts_have_their_places(rt: HostRuntime) {
        let mut texts = Reader::new(b"# hello\nx").texts();
        let remark = Text {
            place: Place { line: 1, offset: 0 },
            line: b"# hello",
        };
        assert_eq!(rt; texts.next(), Some(remark));
        let formless = Text {
            place: Place { line: 2, offset: 8 },
            line: b"x",
        };
        assert_eq!(rt; texts.next(), Some(formless));
        assert_eq!(rt; texts.next(), None);
    }
}
