// Signed fields, quotients, wrapped coordinates, and fields of words.
use px_num::{bit, bits, floor_div, height_of_profile, sign11, wrap_at, wrap_x, wrap_y};

#[test]
fn vertices_are_signed_and_quotients_round_down(rt: HostRuntime) {
    for (word, want) in [
        (0, 0),
        (1023, 1023),
        (0x400, -1024),
        (0x7ff, -1),
        (0xffff_f800, 0),
    ] {
        assert_eq!(rt; sign11(word), want, "at {word}");
    }
    for (a, b, want) in [(7, 2, 3), (-7, 2, -4), (-8, 2, -4), (0, 5, 0)] {
        assert_eq!(rt; quotient(a, b), Some(want), "at {a} over {b}");
    }
    assert_eq!(rt; (wrap_x(1027), wrap_y(515), wrap_at(1027, 1024)), (3, 3, 3));
}

fn quotient(a: i64, b: i64) -> Option<i64> {
    if b > 0 { Some(floor_div(a, b)) } else { None }
}

#[test]
fn fields_lie_where_they_begin(rt: HostRuntime) {
    assert!(rt; bit(0x8000_0000, 31) && !bit(0x8000_0000, 30));
    let opcode = bits(0xe407_ffff, 24, 8);
    assert_eq!(rt; (opcode, bits(0x1234_5678, 4, 12)), (0xe4, 0x567));
    assert_eq!(rt;
        (height_of_profile(false), height_of_profile(true)),
        (512, 1024)
    );
}
