// Linked lists, and starts of channels.
use list_dma::{DmaFault, ListLoop, Plan, Run, Walk, block_plan, next_node, start_run};
use ot_clear_dma::Ram;
use std::test::Fail;

// A list of 1,000 nodes from 1000h on, each linked to the next word.
fn long_list(ram: &mut Ram) {
    for k in 0..999u32 {
        ram.put(0x1000 + 4 * k, 0x1004 + 4 * k);
    }
}

#[test]
fn a_list_is_refused_where_it_comes_back(rt: HostRuntime) -> Result<(), Fail> {
    let mut ram = Ram::new(rt.alloc())?;
    let mut walk = Walk::new(rt.alloc())?;
    ram.clear_table(0x10c, 4);
    ram.put(0x200, 0x0400_0104);
    ram.put(0x108, 0x0000_0200);
    assert_eq!(rt; walk.check(&ram, 0x10c), Ok(5));
    assert_eq!(rt; walk.check(&ram, 0xff_ffff), Ok(0));
    long_list(&mut ram);
    for (last, want) in [
        (0x17d0, Err(ListLoop { node: 0x17d0 })),
        (0xff_ffff, Ok(1000)),
        (0x1f9c, Err(ListLoop { node: 0x1f9c })),
    ] {
        ram.put(0x1f9c, last);
        assert_eq!(rt; walk.check(&ram, 0x1000), want, "at {last}");
    }
    for header in [0x0000_0100, 0x0100_0100] {
        ram.put(0x100, header);
        assert_eq!(rt;
            walk.check(&ram, 0xff20_0101),
            Err(ListLoop { node: 0x100 })
        );
    }
    Ok(())
}

#[test]
fn nodes_follow_their_headers(rt: HostRuntime) -> Result<(), Fail> {
    let mut ram = Ram::new(rt.alloc())?;
    for (header, want) in [
        (0x0100_0200, Some(0x200)),
        (0x0020_0103, Some(0x100)),
        (0x0080_0000, None),
        (0xff00_0000, Some(0)),
    ] {
        ram.put(0x100, header);
        assert_eq!(rt; next_node(&ram, 0x100), want, "at {header}");
    }
    Ok(())
}

#[test]
fn starts_are_planned(rt: HostRuntime) {
    let all = Plan::Words {
        n: 524_288,
        back: false,
        to_ram: false,
    };
    for (bcr, chcr, want) in [
        (0, 0x0100_0601, Err(DmaFault::Bad)),
        (0, 0x0100_0400, Err(DmaFault::Bad)),
        (0, 0x0000_0601, Ok(Plan::Idle)),
        (
            0x0201_0400,
            0x0100_0201,
            Err(DmaFault::TooLong { words: 525_312 }),
        ),
        (0x0200_0400, 0x0100_0201, Ok(all)),
        (
            0,
            0x0100_0201,
            Err(DmaFault::TooLong {
                words: 4_294_967_296,
            }),
        ),
    ] {
        assert_eq!(rt; block_plan(bcr, chcr), want, "at {bcr}, {chcr}");
    }
    let block = Run::Words {
        at: 0x300,
        left: 2,
        block: 1,
        back: false,
        to_ram: false,
    };
    assert_eq!(rt; start_run(0x300, 0x0002_0001, 0x0100_0201), Ok(Some(block)));
    for (madr, bcr, chcr, want) in [
        (0xff_ffff, 0, 0x0100_0401, Ok(Some(Run::Idle))),
        (0x100, 0, 0x0100_0401, Ok(Some(Run::List { node: 0x100 }))),
        (0x100, 0, 0x0000_0401, Ok(None)),
        (0x100, 0, 0x0100_0601, Err(DmaFault::Bad)),
    ] {
        assert_eq!(rt; start_run(madr, bcr, chcr), want, "at {madr}, {chcr}");
    }
}
