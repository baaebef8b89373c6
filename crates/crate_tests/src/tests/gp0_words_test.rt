// Words that are split into packets, and their lengths.
use gp0_words::{Item, Pending, Splitter, first_len};

#[derive(Clone, Copy, Debug, PartialEq)]
enum Seen {
    Nothing,
    Whole(usize),
    Joint(u32, u32),
    Finish(u32),
    Pixels(u32),
}

fn look_at(item: Item) -> Seen {
    match item {
        Item::Whole { words } => Seen::Whole(words.as_slice().len()),
        Item::Joint {
            from_vertex,
            to_vertex,
            ..
        } => Seen::Joint(from_vertex, to_vertex),
        Item::Finish { word } => Seen::Finish(word),
        Item::Pixels { word } => Seen::Pixels(word),
    }
}

fn look(item: Option<Item>) -> Seen {
    match item {
        Some(item) => look_at(item),
        None => Seen::Nothing,
    }
}

#[test]
fn a_load_and_two_polylines_are_cut(rt: HostRuntime) {
    let mut splitter = Splitter::new();
    for (word, want, idle) in [
        (0xa000_0000, Seen::Nothing, false),
        (0x0000_0000, Seen::Nothing, false),
        (0x0001_0003, Seen::Whole(3), false),
        (0x2222_1111, Seen::Pixels(0x2222_1111), false),
        (0x9999_3333, Seen::Pixels(0x9999_3333), true),
        // The second vertex looks like an end word.
        (0x4800_00ff, Seen::Nothing, false),
        (0x0000_0000, Seen::Nothing, false),
        (0x5000_5002, Seen::Whole(3), false),
        (0x5555_5555, Seen::Finish(0x5555_5555), true),
        (0x4800_00ff, Seen::Nothing, false),
        (0x0000_0000, Seen::Nothing, false),
        (0x0000_0002, Seen::Whole(3), false),
        (0x0002_0002, Seen::Joint(0x0000_0002, 0x0002_0002), false),
        (0x5000_5000, Seen::Finish(0x5000_5000), true),
    ] {
        assert_eq!(rt; look(splitter.push(word)), want, "at {word}");
        assert_eq!(rt; splitter.is_idle(), idle, "after {word}");
    }
}

// Returns how many pushes of a command and then of a word complete an item, or 0 if twelve do not.
fn pushes(command: u32, word: u32) -> usize {
    let mut splitter = Splitter::new();
    if splitter.push(command).is_some() {
        return 1;
    }
    for n in 2..13 {
        if splitter.push(word).is_some() {
            return n;
        }
    }
    0
}

#[test]
fn every_length_is_that_of_the_first_word(rt: HostRuntime) {
    for (command, word, len) in [
        (0x0200_0000, 0, 3),
        (0x2000_0000, 0, 4),
        (0x2800_0000, 0, 5),
        (0x2400_0000, 0, 7),
        (0x2c00_0000, 0, 9),
        (0x3000_0000, 0, 6),
        (0x3800_0000, 0, 8),
        (0x3400_0000, 0, 9),
        (0x3c00_0000, 0, 12),
        (0x4000_0000, 0, 3),
        (0x5000_0000, 0, 4),
        (0x6000_0000, 0, 3),
        (0x6400_0000, 0, 4),
        (0x6800_0000, 0, 2),
        (0x7400_0000, 0, 3),
        (0x8000_0000, 0, 4),
        (0xa000_0000, 0x0001_0001, 3),
        (0xc000_0000, 0, 3),
        (0x1f00_0000, 0, 1),
        (0x0100_0000, 0, 1),
        (0xe100_0000, 0, 1),
    ] {
        assert_eq!(rt; pushes(command, word), len, "of {command}");
        assert_eq!(rt; first_len(command), len, "at {command}");
    }
}

#[test]
fn a_cleared_splitter_has_nothing_pending(rt: HostRuntime) {
    let mut splitter = Splitter::new();
    assert!(rt; splitter.push(0x2000_0000).is_none());
    assert!(rt; !splitter.is_idle());
    splitter.clear();
    assert!(rt; splitter.is_idle());
    assert!(rt; splitter.push(0x0000_0000).is_some());
}

#[test]
fn a_splitter_goes_on_from_what_is_pending(rt: HostRuntime) {
    let mut splitter = Splitter::new();
    for word in [0x5800_00ff, 0, 0x0000_ff00, 0x0002_0002, 0x00ff_0000] {
        splitter.push(word);
    }
    match Splitter::resume(splitter.pending()) {
        Some(mut resumed) => assert_eq!(rt;
            look(resumed.push(0x0004_0004)),
            Seen::Joint(0x0002_0002, 0x0004_0004)
        ),
        None => assert!(rt; false),
    }
    assert!(rt; Splitter::resume(Pending::Pixels { left: 262_145 }).is_none());
    assert!(rt; Splitter::resume(Pending::Pixels { left: 0 }).is_none());
}
