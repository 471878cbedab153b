//! Where a run of one class of bytes ends.
use crate::runs::{run_of_name, run_of_space, run_to_line_end};

// 65 bytes of a class in turn, and another byte at one place.
fn text_but_for(class: [u8; 8], place: usize, other: u8) -> [u8; 65] {
    let mut text = [other; 65];
    for (at, byte) in text.iter_mut().enumerate() {
        if at != place {
            *byte = class[at % 8];
        }
    }
    text
}

// The length of a text, the place of another byte (at 65 there is none), the length of the run, and
// the other byte among names, among spaces and in a line.
const RUNS: [(usize, usize, usize, [u8; 3]); 19] = [
    (0, 65, 0, [0x80, b'\n', b'\n']),
    (1, 65, 1, [0x80, b'\n', b'\n']),
    (1, 0, 0, [b'/', b'\n', b'\n']),
    (31, 65, 31, [0x80, b'\n', b'\n']),
    (31, 0, 0, [b':', b'\r', b'\r']),
    (31, 15, 15, [b'@', 0x0B, b'\n']),
    (31, 30, 30, [b'[', b'!', b'\r']),
    (32, 65, 32, [0x80, b'\n', b'\n']),
    (32, 0, 0, [b'^', b'\n', b'\n']),
    (32, 16, 16, [b'`', b'\r', b'\r']),
    (32, 31, 31, [0x80, 0x1F, b'\r']),
    (33, 65, 33, [0x80, b'\n', b'\n']),
    (33, 0, 0, [b'{', 0x08, b'\n']),
    (33, 16, 16, [0x80, 0xA0, b'\r']),
    (33, 32, 32, [0xE1, b'\n', b'\n']),
    (65, 65, 65, [0x80, b'\n', b'\n']),
    (65, 0, 0, [0xFF, 0x85, b'\r']),
    (65, 32, 32, [0xDF, b'\r', b'\r']),
    (65, 64, 64, [b' ', b'#', b'\n']),
];

#[test]
fn a_run_ends_at_another_byte(rt: HostRuntime) {
    for (len, place, run, [name, space, line]) in RUNS {
        let names = text_but_for(*b"azAZ09__", place, name);
        let spaces = text_but_for(*b" \t\x0C \x0C\t\t ", place, space);
        let lines = text_but_for(*b"# \t\x0C\x0B\x00\x7F\xFF", place, line);
        let runs = [
            names.get(..len).map(run_of_name),
            spaces.get(..len).map(run_of_space),
            lines.get(..len).map(run_to_line_end),
        ];
        assert_eq!(rt; runs, [Some(run); 3], "{len} bytes, another at {place}");
    }
}
