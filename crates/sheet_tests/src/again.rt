// What is read, written again.
use crate::faults::INVERTER;
use sheet::read::read_pair;
use sheet::room::PairRoom;
use sheet::write::write_pair;
use std::test::Fail;

#[test]
fn written_again(rt: HostRuntime) -> Result<(), Fail> {
    let pair = read_pair(PairRoom::new(rt.alloc())?, INVERTER)?;
    let mut again = [b'*'; 200];
    assert_eq!(rt; write_pair(&pair, &mut again)?, 192);
    let bytes = *INVERTER;
    assert!(rt; &again[0..192] == &bytes[0..192]);
    assert!(rt; &again[192..200] == &[b'*'; 8][0..8]);
    Ok(())
}

#[test]
fn too_short(rt: HostRuntime) -> Result<(), Fail> {
    let pair = read_pair(PairRoom::new(rt.alloc())?, INVERTER)?;
    let mut again = [b'*'; 191];
    let written = write_pair(&pair, &mut again);
    assert_eq!(rt; written.map_err(|refusal| refusal.number()), Err(13));
    for byte in again {
        assert_eq!(rt; byte, b'*');
    }
    Ok(())
}

#[test]
fn fault_in_words(rt: HostRuntime) -> Result<(), Fail> {
    let mut bytes = *INVERTER;
    bytes[69] = b'x';
    let Err(fault) = read_pair(PairRoom::new(rt.alloc())?, &bytes) else {
        return Err(Fail::new("read"));
    };
    assert_eq!(rt;
        format!(in rt.alloc(); "{fault}")?.as_str(),
        "target, row 3, column 2: field not in form"
    );
    Ok(())
}
