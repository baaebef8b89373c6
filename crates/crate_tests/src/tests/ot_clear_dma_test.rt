// Main memory, and an ordering table that is cleared.
use ot_clear_dma::Ram;
use std::test::Fail;

#[test]
fn new_memory_is_zero(rt: HostRuntime) -> Result<(), Fail> {
    let ram = Ram::new(rt.alloc())?;
    for address in [0, 4, 0xf_fffc, 0x1f_fffc] {
        assert_eq!(rt; ram.get(address), 0, "at {address}");
    }
    Ok(())
}

#[test]
fn a_cleared_table_is_a_list_downward(rt: HostRuntime) -> Result<(), Fail> {
    let mut ram = Ram::new(rt.alloc())?;
    ram.put(0xfc, 0x1234_5678);
    ram.clear_table(0xff20_0108, 4);
    for (address, want) in [
        (0x108, 0x104),
        (0x104, 0x100),
        (0x103, 0xfc),
        (0xfc, 0x00ff_ffff),
        (0xf8, 0),
        (0x10c, 0),
    ] {
        assert_eq!(rt; ram.get(address), want, "at {address}");
    }
    ram.clear_table(4, 3);
    assert_eq!(rt;
        (ram.get(4), ram.get(0), ram.get(0x1f_fffc)),
        (0, 0x1f_fffc, 0xff_ffff)
    );
    Ok(())
}
