// Dither offsets, and the arithmetic of one pixel and of sixteen.
use blend_dither::{
    blend, blend_lanes, laws, modulate, modulate_lanes, pack, shift_at, tone, tone_lanes,
};
use px_num::lanes::splat;
use std::simd::prelude::*;

#[test]
fn dither_offsets_by_row_and_column(rt: HostRuntime) {
    let rows = [
        [-4, 0, -3, 1],
        [2, -2, 3, -1],
        [-3, 1, -4, 0],
        [3, -1, 2, -2],
    ];
    for y in 0..4u16 {
        for x in 0..4u16 {
            assert_eq!(rt;
                shift_at(1020 + x, 508 + y),
                rows[y as usize][x as usize],
                "at {x} {y}"
            );
        }
    }
}

#[test]
fn one_pixel(rt: HostRuntime) {
    for (color, shift, want) in [
        (0xff, 0, 0x001f),
        (0xff_ffff, 3, 0x7fff),
        (0x08_0808, 0, 0x0421),
        (0x08_0808, -4, 0),
        (0x08_0808, -3, 0),
        (0x08_0808, 1, 0x0421),
    ] {
        assert_eq!(rt; tone(color, shift), want, "of {color} at {shift}");
    }
    assert_eq!(rt; modulate(0x9234, 0x80_8080, 0), 0x1234);
    let results = [0x0010, 0x043f, 0x001e, 0x001f];
    for mode in 0..4u8 {
        assert_eq!(rt;
            blend(mode, 0x001f, 0x0421),
            results[mode as usize],
            "mode {mode}"
        );
    }
    assert_eq!(rt; blend(0, 0, 0x7fff), 0x3def);
    assert_eq!(rt; pack(0xffff, false, false), 0x7fff);
    assert_eq!(rt;
        (pack(1, true, false), pack(2, false, true)),
        (0x8001, 0x8002)
    );
    laws::neutral_color();
}

#[test]
fn sixteen_pixels(rt: HostRuntime) {
    let eight = splat(8);
    let none = i16x16::splat(0);
    let tones = tone_lanes(eight, eight, eight, none);
    assert_eq!(rt; tones.to_array(), [0x0421; 16]);
    let neutral = splat(128);
    let texels = modulate_lanes(splat(0x9234), neutral, neutral, neutral, none);
    assert_eq!(rt; texels.to_array(), [0x1234; 16]);
    assert_eq!(rt;
        blend_lanes(1, splat(0x001f), tones).to_array(),
        [0x043f; 16]
    );
}
