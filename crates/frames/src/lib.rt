// Frames, kept as lines of hexadecimal: what they say, how a line is read and how one is written.
#![tactic(auto)]

mod fault;
mod frame;
mod hex;
mod kind;
mod lines;
mod reader;
mod writer;

pub use fault::{LineFault, WriteFault};
pub use frame::{Frame, Room};
pub use hex::hex_pair;
pub use kind::{Kind, LONGEST_LINE};
pub use lines::{Lines, first_line};
pub use reader::read_line;
pub use writer::write_line;

#[cfg(test)]
mod tests {
    use super::*;
    use std::test::Fail;
    use terms::Access;

    #[test]
    fn accesses_8_are_read_and_9_refused(rt: HostRuntime) -> Result<(), Fail> {
        let mut room = Room::new();
        let line = b"01000008010001010001010001010001010001010001010001010001";
        let Ok(Frame::Append { snapshot, accesses }) = read_line(line, &mut room) else {
            return Err(Fail::new("8 accesses were refused"));
        };
        assert_eq!(rt; snapshot, 0);
        assert_eq!(rt; accesses.len(), 8);
        assert_eq!(rt; accesses, [Access { mode: 1, cell: 1 }; 8].as_slice());
        let line = b"01000009010001010001010001010001010001010001010001010001010001";
        assert_eq!(rt;
            read_line(line, &mut room).err(),
            Some(LineFault::WrongLength(31))
        );
        Ok(())
    }

    #[test]
    fn lines_are_refused_in_the_order_of_the_causes(rt: HostRuntime) {
        let mut room = Room::new();
        assert_eq!(rt;
            read_line(b"x", &mut room).err(),
            Some(LineFault::OddCount(1))
        );
        assert_eq!(rt;
            read_line(b"7f", &mut room).err(),
            Some(LineFault::NotHexadecimal(1))
        );
        assert_eq!(rt; read_line(b"", &mut room).err(), Some(LineFault::Empty));
        assert_eq!(rt;
            read_line(b"7F", &mut room).err(),
            Some(LineFault::UnknownKind(127))
        );
        assert_eq!(rt;
            read_line(b"0200", &mut room).err(),
            Some(LineFault::WrongLength(2))
        );
    }

    #[test]
    fn a_refused_frame_leaves_the_buffer_as_it_was(rt: HostRuntime) {
        let mut out = [7u8; 16];
        let accesses = [Access {
            mode: 1,
            cell: 1023,
        }; 9];
        let frame = Frame::Append {
            snapshot: 258,
            accesses: &accesses,
        };
        assert_eq!(rt;
            write_line(frame, &mut out),
            Err(WriteFault::TooManyAccesses(9))
        );
        let frame = Frame::Append {
            snapshot: 258,
            accesses: &accesses[0..2],
        };
        assert_eq!(rt;
            write_line(frame, &mut out),
            Err(WriteFault::ShortBuffer(21))
        );
        assert_eq!(rt; out, [7u8; 16]);
        let frame = Frame::Append {
            snapshot: 258,
            accesses: &accesses[0..1],
        };
        assert_eq!(rt; write_line(frame, &mut out), Ok(15));
        assert_eq!(rt; out, *b"010102010103FF\n\x07");
    }

    #[test]
    fn the_last_line_needs_no_line_feed(rt: HostRuntime) {
        let (line, rest) = first_line(b"02\n06");
        assert_eq!(rt; line, b"02".as_slice());
        let (line, rest) = first_line(rest);
        assert_eq!(rt; line, b"06".as_slice());
        assert_eq!(rt; rest.len(), 0);
        let mut lines = Lines::new(b"02\n06");
        assert_eq!(rt; lines.next(), Some(b"02".as_slice()));
        assert_eq!(rt; lines.next(), Some(b"06".as_slice()));
        assert_eq!(rt; lines.next(), None);
    }

    #[test]
    fn a_kind_is_found_by_its_byte(rt: HostRuntime) {
        for kind in Kind::ALL {
            assert_eq!(rt; Kind::try_from(u8::from(kind)), Ok(kind));
        }
        assert_eq!(rt; Kind::try_from(0x0A), Err(LineFault::UnknownKind(10)));
        let frame = Frame::Verdict { number: 2 };
        assert_eq!(rt; frame.kind(), Kind::Verdict);
    }
}
