// What is read from bytes in memory, and what is written there.
use crate::{read_bytes, write_fault};
use refusal::fault::Fault;
use refusal::refusal::Refusal;
use std::io;
use std::io::Write;
use std::test::Fail;

#[test]
fn no_more_than_a_pair(rt: HostRuntime) -> Result<(), Fail> {
    let text = [b'H'; 14_000];
    assert_eq!(rt; read_bytes(rt.alloc(), &text[..40])?.len(), 40);
    assert_eq!(rt; read_bytes(rt.alloc(), &text[..])?.len(), 13_920);
    Ok(())
}

#[test]
fn fault_as_a_row_and_in_words(rt: HostRuntime) -> Result<(), Fail> {
    let mut row = Vec::new(rt.alloc());
    let mut words = Vec::new(rt.alloc());
    let fault = Fault::at(Refusal::FieldForm, 7).in_row(3);
    write_fault(&mut row, &mut words, &fault)?;
    assert!(rt; row.as_slice() == b"F    4    0    3    7          \n".as_slice());
    assert!(rt; words.as_slice() == b"sheet, row 3, column 7: field not in form\n".as_slice());
    Ok(())
}

/// A writer that keeps what it is given, and counts how often it is given anything.
#[derive(Drop)]
struct Counted {
    text: Vec<u8>,
    writes: usize,
}

impl Write for Counted {
    fn write(&mut self, buf: &[u8]) -> io::Result<usize> {
        self.writes = self.writes.saturating_add(1);
        self.text.write(buf)
    }

    fn flush(&mut self) -> io::Result<()> {
        Ok(())
    }
}

#[test]
fn words_in_one_write(rt: HostRuntime) -> Result<(), Fail> {
    let longest = Fault::at(Refusal::Unlike, 255).in_row(65_535).in_sheet(2);
    let shown =
        b"specification, row 65535, column 255: target and specification differ in inputs or outputs\n";
    for (fault, line) in [
        (longest, shown.as_slice()),
        (Fault::at(Refusal::NoMemory, 0), b"no memory\n".as_slice()),
    ] {
        let mut row = Vec::new(rt.alloc());
        let mut words = Counted {
            text: Vec::new(rt.alloc()),
            writes: 0,
        };
        write_fault(&mut row, &mut words, &fault)?;
        assert!(rt; words.text.as_slice() == line);
        assert_eq!(rt; words.writes, 1);
    }
    Ok(())
}
