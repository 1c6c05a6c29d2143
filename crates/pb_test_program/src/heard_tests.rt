use pb_explain_again::Heard;
use pb_io::{OutFault, write_all};

const FIRST: &[u8] = b"0 send 1 A\n1 enter barrier\n1 recv 0 A\n0 send 2 B\npabble: stuck, rank 1 ";

#[test]
fn hears_the_last_lines(rt: HostRuntime) -> Result<(), OutFault> {
    let mut heard = Heard::new(rt.alloc());
    write_all(&mut heard, FIRST)?;
    write_all(&mut heard, b"waits in a collective\n")?;
    assert!(rt; heard.deed(0) == b"send 2 B".as_slice());
    assert!(rt; heard.deed(1) == b"recv 0 A".as_slice());
    assert!(rt; heard.deed(2).is_empty());
    assert!(rt; heard.entered(1) == 1);
    assert!(rt; heard.entered(0) == 0);
    assert!(rt; heard.told() == b"stuck, rank 1 waits in a collective".as_slice());
    Ok(())
}
