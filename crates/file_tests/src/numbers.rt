use decimals::{read_number, write_number, write_set};
use faults::Refusal;
use memory::write;

#[test]
fn numbers_read(rt: HostRuntime) {
    assert_eq!(rt; read_number(b"0"), Some(0));
    assert_eq!(rt; read_number(b"10"), Some(10));
    assert_eq!(rt; read_number(b"65535"), Some(65535));
    assert_eq!(rt; read_number(b"4294967295"), Some(4294967295));
    assert_eq!(rt; read_number(b"4294967296"), None);
    assert_eq!(rt; read_number(b"99999999999999999999"), None);
    assert_eq!(rt; read_number(b""), None);
    assert_eq!(rt; read_number(b"00"), None);
    assert_eq!(rt; read_number(b"01"), None);
    assert_eq!(rt; read_number(b"1a"), None);
    assert_eq!(rt; read_number(b"/"), None);
    assert_eq!(rt; read_number(b":"), None);
}

#[test]
fn numbers_written(rt: HostRuntime) {
    let mut out = [b'.'; 12];
    assert_eq!(rt; write_number(&mut out, 1, 4294967295), Ok(11));
    assert!(rt; out == *b".4294967295.");
    assert_eq!(rt; write_number(&mut out, 11, 7), Ok(12));
    assert_eq!(rt;
        write_number(&mut out, 11, 10),
        Err(Refusal::MemoryTooShort)
    );
    assert_eq!(rt; write_number(&mut out, 12, 0), Err(Refusal::MemoryTooShort));
    assert_eq!(rt;
        write_number(&mut out, usize::MAX, 0),
        Err(Refusal::MemoryTooShort)
    );
    assert!(rt; out == *b".42949672957");
}

#[test]
fn sets_written(rt: HostRuntime) {
    let mut out = [b'.'; 9];
    assert_eq!(rt; write_set(&mut out, 1, 0), Ok(1));
    assert_eq!(rt; write_set(&mut out, 9, 0), Ok(9));
    assert_eq!(rt; write_set(&mut out, 10, 0), Err(Refusal::MemoryTooShort));
    assert_eq!(rt; write_set(&mut out, 1, 0x8000_0401), Ok(8));
    assert!(rt; out == *b".0,10,31.");
    assert_eq!(rt;
        write_set(&mut out, 3, 0x8000_0401),
        Err(Refusal::MemoryTooShort)
    );
    assert!(rt; out == *b".0,10,31.");
}

#[test]
fn whole_set(rt: HostRuntime) {
    let mut out = [b'.'; 86];
    assert_eq!(rt; write_set(&mut out, 0, u32::MAX), Ok(85));
    assert!(rt; out[84] == b'1' && out[85] == b'.');
}

#[test]
fn items_written(rt: HostRuntime) {
    let mut out = [0u16; 4];
    assert_eq!(rt; write(&mut out, 2, &[7, 8]), Ok(4));
    assert_eq!(rt; write(&mut out, 3, &[7, 8]), Err(Refusal::MemoryTooShort));
    assert_eq!(rt; write(&mut out, 5, &[]), Err(Refusal::MemoryTooShort));
    assert!(rt; out == [0, 0, 7, 8]);
}
