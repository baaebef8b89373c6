// The status word, the picture and the latch.
use gp1_status::{Regs, clears, laws};

#[test]
fn the_status_word_shows_registers_and_machine(rt: HostRuntime) {
    for (idle, sending, want) in [
        (true, false, 0x1480_2000),
        (false, false, 0x1080_2000),
        (true, true, 0x0c80_2000),
    ] {
        assert_eq!(rt;
            Regs::new().status(idle, sending),
            want,
            "at {idle}, {sending}"
        );
    }
    let mut regs = Regs::new();
    for word in [0x0300_0000, 0x0400_0002, 0x0800_0001] {
        regs.gp1(word);
    }
    assert_eq!(rt; regs.status(true, false), 0x5602_2000);
    assert_eq!(rt;
        (regs.display_off(), regs.direction(), regs.mode()),
        (false, 2, 1)
    );
    let mut raised = Regs::new();
    raised.raise();
    raised.env(1, 0x800);
    assert_eq!(rt; raised.status(true, false), 0x1580_2000);
    assert!(rt; raised.irq());
}

#[test]
fn the_picture_has_the_shape_of_its_ranges(rt: HostRuntime) {
    for (word, shape) in [
        (0x0800_0000, Some((256, 240))),
        (0x0800_0001, Some((320, 240))),
        (0x0800_0040, Some((364, 240))),
        (0x0800_0027, Some((640, 480))),
        (0x0620_0200, None),
        (0x0704_0100, None),
    ] {
        let mut regs = Regs::new();
        regs.gp1(word);
        assert_eq!(rt; regs.shape(), shape, "after {word}");
    }
}

#[test]
fn information_goes_to_the_latch(rt: HostRuntime) {
    let mut regs = Regs::new();
    regs.env(2, 0xf_ffff);
    regs.env(4, 0xf_ffff);
    for (word, want) in [
        (0x1000_0002, 0xf_ffff),
        (0x1000_0007, 2),
        (0x1000_0000, 2),
        (0x1000_0004, 0x7_ffff),
        (0x5f00_0007, 2),
    ] {
        regs.gp1(word);
        assert_eq!(rt; regs.held(), want, "after {word}");
    }
    assert_eq!(rt; (regs.info(4), regs.info(6)), (Some(0x7_ffff), None));
}

#[test]
fn a_reset_keeps_the_latch(rt: HostRuntime) {
    let mut regs = Regs::new();
    regs.env(1, 0xff_ffff);
    regs.page(0);
    assert_eq!(rt; regs.e1(), 0x3600);
    regs.latch(0x1234_5678);
    regs.gp1(0x4000_0000);
    assert_eq!(rt; (regs.e1(), regs.window(), regs.top_left()), (0, 0, 0));
    assert_eq!(rt;
        (regs.bottom_right(), regs.offset(), regs.mask()),
        (0, 0, 0)
    );
    assert_eq!(rt;
        (regs.start(), regs.hrange(), regs.vrange()),
        (0, 0xc0_0200, 0x4_0010)
    );
    assert_eq!(rt; (regs.held(), regs.height()), (0x1234_5678, 512));
    assert_eq!(rt; (clears(0x4100_0000), clears(0x0200_0000)), (true, false));
}

#[test]
fn words_are_the_registers_that_wrote_them(rt: HostRuntime) {
    laws::words_say_all();
    let mut regs = Regs::new();
    regs.gp1(0x0300_0000);
    regs.gp1(0x0400_0002);
    regs.raise();
    let mut words = regs.to_words();
    assert_eq!(rt; (words[6], words[7], words[9]), (1, 2, 0xc0_0200));
    match Regs::from_words(&words, false) {
        Some(again) => assert_eq!(rt; again.status(true, false), 0x5700_2000),
        None => assert!(rt; false),
    }
    words[0] = 0x800;
    assert!(rt; Regs::from_words(&words, false).is_none());
    assert!(rt; Regs::from_words(&words, true).is_some());
    words[6] = 4;
    assert!(rt; Regs::from_words(&words, true).is_none());
}
