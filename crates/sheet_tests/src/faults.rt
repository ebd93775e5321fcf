// Faults of a damaged pair, each with its number, sheet, row and column.
use circuit::pair::Pair;
use refusal::fault::Fault;
use sheet::read::read_pair;
use sheet::room::PairRoom;
use std::test::Fail;

/// A table on net 1 against an inverter.
pub const INVERTER: &[u8; 192] =
    b"H    1    1    1               \nL    2    1                    \nQ    2                         \nH    1    1    1               \nI    2    1                    \nQ    2                         \n";

/// The number, sheet, row and column of a fault, where there is one.
fn place(answer: Result<Pair, Fault>) -> Option<(u32, u8, u16, u8)> {
    let fault = answer.err()?;
    Some((fault.number(), fault.sheet, fault.row, fault.column))
}

#[test]
fn one_byte_changed(rt: HostRuntime) -> Result<(), Fail> {
    // the byte's place and its new value, and the fault
    let cases = [
        (31, b' ', Some((2, 1, 1, 32))),
        (0, b'G', Some((3, 1, 1, 1))),
        (5, b'x', Some((4, 1, 1, 2))),
        (5, b'0', Some((5, 1, 1, 2))),
        (25, b'1', Some((4, 1, 1, 22))),
        (10, b'9', Some((6, 1, 1, 1))),
        (10, b'2', Some((3, 1, 3, 1))),
        (32, b'Z', Some((3, 1, 2, 1))),
        (36, b'0', Some((4, 1, 2, 2))),
        (37, b'3', Some((5, 1, 2, 2))),
        (42, b' ', Some((4, 1, 2, 7))),
        (42, b'0', Some((5, 1, 2, 7))),
        (42, b'2', Some((5, 1, 2, 7))),
        (52, b'1', Some((4, 1, 2, 17))),
        (62, b'1', Some((4, 1, 2, 27))),
        (69, b'3', Some((5, 1, 3, 2))),
        (95, b'\r', Some((2, 1, 3, 32))),
        (101, b'2', Some((5, 2, 2, 2))),
        (106, b'2', Some((6, 2, 1, 1))),
        (128, b'L', Some((3, 2, 2, 1))),
        (143, b'1', Some((4, 2, 2, 12))),
        (165, b'1', None),
    ];
    for (at, byte, fault) in cases {
        let mut bytes = *INVERTER;
        if let Some(changed) = bytes.get_mut(at) {
            *changed = byte;
        }
        assert_eq!(rt;
            place(read_pair(PairRoom::new(rt.alloc())?, &bytes)),
            fault,
            "byte changed"
        );
    }
    Ok(())
}

#[test]
fn cut_short(rt: HostRuntime) -> Result<(), Fail> {
    let cases = [
        (0, Some((1, 1, 0, 0))),
        (1, Some((1, 1, 0, 0))),
        (32, Some((6, 1, 1, 1))),
        (64, Some((6, 1, 1, 1))),
        (95, Some((1, 1, 0, 0))),
        (96, Some((1, 2, 0, 0))),
        (128, Some((6, 2, 1, 1))),
        (160, Some((6, 2, 1, 1))),
        (192, None),
    ];
    let bytes = *INVERTER;
    for (length, fault) in cases {
        let part = &bytes[..length.min(192)];
        assert_eq!(rt;
            place(read_pair(PairRoom::new(rt.alloc())?, part)),
            fault,
            "cut short"
        );
    }
    Ok(())
}
