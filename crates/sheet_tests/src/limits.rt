// The limits of the format: sixteen inputs, and sixty-four setting rows.
use circuit::circuit::Circuit;
use refusal::fault::Fault;
use sheet::read::read_sheet;
use sheet::room::Room;
use std::test::Fail;

const SIXTEEN: &[u8; 96] =
    b"H   16    1    1               \nI   17   16                    \nQ   17                         \n";

const SEVENTEEN: &[u8; 96] =
    b"H   17    1    1               \nI   18   17                    \nQ   18                         \n";

const FULL: &[u8; 192] =
    b"H    4    4    1               \nL    5    1    2    3    4     \nL    6    1    2    3    4     \nL    7    1    2    3    4     \nL    8    1    2    3    4     \nQ    8                         \n";

const OVERFULL: &[u8; 224] =
    b"H    4    5    1               \nL    5    1    2    3    4     \nL    6    1    2    3    4     \nL    7    1    2    3    4     \nL    8    1    2    3    4     \nL    9    1                    \nQ    8                         \n";

/// The number of setting rows, or the fault's number, row and column.
fn rows(answer: Result<Circuit, Fault>) -> Result<usize, (u32, u16, u8)> {
    answer
        .map(|circuit| circuit.rows())
        .map_err(|fault| (fault.number(), fault.row, fault.column))
}

#[test]
fn sixteen_inputs(rt: HostRuntime) -> Result<(), Fail> {
    assert_eq!(rt; rows(read_sheet(Room::new(rt.alloc())?, SIXTEEN)), Ok(0));
    assert_eq!(rt;
        rows(read_sheet(Room::new(rt.alloc())?, SEVENTEEN)),
        Err((5, 1, 2))
    );
    Ok(())
}

#[test]
fn sixty_four_rows(rt: HostRuntime) -> Result<(), Fail> {
    assert_eq!(rt; rows(read_sheet(Room::new(rt.alloc())?, FULL)), Ok(64));
    assert_eq!(rt;
        rows(read_sheet(Room::new(rt.alloc())?, OVERFULL)),
        Err((7, 6, 1))
    );
    Ok(())
}
