//! What operators give for each pair of kinds (language reference, "Binary arithmetic operations", "Shifting operations", "Binary
//! bitwise operations", "The power operator", "Comparisons").

/// The rows of a table by the left kind. What it has no row for is a fault with every kind on the right.
pub type Rows = &'static [(u8, &'static [u8; 13])];

// A cell has the letter of what comes: `i` int, `f` float, `p` either, `s` str, `y` bytes, `T` True, `F` False, `B` either, `-` a
// list or a tuple, which has no shape yet, `.` a fault.
pub const ADDITION: Rows = &[
    (b'b', b".iif........."),
    (b'i', b".iif........."),
    (b'f', b".fff........."),
    (b's', b"....s........"),
    (b'y', b".....y......."),
    (b'l', b"......-......"),
    (b't', b"........-...."),
];

pub const ARITHMETIC: Rows = &[
    (b'b', b".iif........."),
    (b'i', b".iif........."),
    (b'f', b".fff........."),
];

pub const MULTIPLICATION: Rows = &[
    (b'b', b".iifsy-.-...."),
    (b'i', b".iifsy-.-...."),
    (b'f', b".fff........."),
    (b's', b".ss.........."),
    (b'y', b".yy.........."),
    (b'l', b".--.........."),
    (b't', b".--.........."),
];

pub const DIVISION: Rows = &[
    (b'b', b".fff........."),
    (b'i', b".fff........."),
    (b'f', b".fff........."),
];

pub const REMAINDER: Rows = &[
    (b'b', b".iif........."),
    (b'i', b".iif........."),
    (b'f', b".fff........."),
    (b's', b"sssssssssssss"),
    (b'y', b"yyyyyyyyyyyyy"),
];

pub const POWER: Rows = &[
    (b'b', b".ppf........."),
    (b'i', b".ppf........."),
    (b'f', b".fff........."),
];

pub const SHIFTS: Rows = &[(b'b', b".ii.........."), (b'i', b".ii..........")];

pub const BITWISE: Rows = &[(b'b', b".Bi.........."), (b'i', b".ii..........")];

pub const ORDER: Rows = &[
    (b'b', b".BBB........."),
    (b'i', b".BBB........."),
    (b'f', b".BBB........."),
    (b's', b"....B........"),
    (b'y', b".....B......."),
    (b'l', b"......B......"),
    (b't', b"........B...."),
];

pub const MEMBERSHIP: Rows = &[
    (b'n', b"......BBBBB.."),
    (b'b', b".....BBBBBB.."),
    (b'i', b".....BBBBBB.."),
    (b'f', b"......BBBBB.."),
    (b's', b"....B.BBBBB.."),
    (b'y', b".....BBBBBB.."),
    (b'l', b"......BBBBB.."),
    (b'd', b"......BBBBB.."),
    (b't', b"......BBBBB.."),
    (b'v', b"......BBBBB.."),
    (b'r', b"......BBBBB.."),
    (b'e', b"......BBBBB.."),
    (b'o', b"......BBBBB.."),
];

pub const EQUALITY: Rows = &[
    (b'n', b"BBBBBBBBBBBBB"),
    (b'b', b"BBBBBBBBBBBBB"),
    (b'i', b"BBBBBBBBBBBBB"),
    (b'f', b"BBBBBBBBBBBBB"),
    (b's', b"BBBBBBBBBBBBB"),
    (b'y', b"BBBBBBBBBBBBB"),
    (b'l', b"BBBBBBBBBBBBB"),
    (b'd', b"BBBBBBBBBBBBB"),
    (b't', b"BBBBBBBBBBBBB"),
    (b'v', b"BBBBBBBBBBBBB"),
    (b'r', b"BBBBBBBBBBBBB"),
    (b'e', b"BBBBBBBBBBBBB"),
    (b'o', b"BBBBBBBBBBBBB"),
];

pub const IDENTITY: Rows = &[
    (b'n', b"TFFFFFFFFFFFF"),
    (b'b', b"FTBBBBBBBBBBB"),
    (b'i', b"FBBBBBBBBBBBB"),
    (b'f', b"FBBBBBBBBBBBB"),
    (b's', b"FBBBBBBBBBBBB"),
    (b'y', b"FBBBBBBBBBBBB"),
    (b'l', b"FBBBBBBBBBBBB"),
    (b'd', b"FBBBBBBBBBBBB"),
    (b't', b"FBBBBBBBBBBBB"),
    (b'v', b"FBBBBBBBBBBBB"),
    (b'r', b"FBBBBBBBBBBBB"),
    (b'e', b"FBBBBBBBBBBBB"),
    (b'o', b"FBBBBBBBBBBBB"),
];

pub const DIFFERENCE: Rows = &[
    (b'n', b"FTTTTTTTTTTTT"),
    (b'b', b"TFBBBBBBBBBBB"),
    (b'i', b"TBBBBBBBBBBBB"),
    (b'f', b"TBBBBBBBBBBBB"),
    (b's', b"TBBBBBBBBBBBB"),
    (b'y', b"TBBBBBBBBBBBB"),
    (b'l', b"TBBBBBBBBBBBB"),
    (b'd', b"TBBBBBBBBBBBB"),
    (b't', b"TBBBBBBBBBBBB"),
    (b'v', b"TBBBBBBBBBBBB"),
    (b'r', b"TBBBBBBBBBBBB"),
    (b'e', b"TBBBBBBBBBBBB"),
    (b'o', b"TBBBBBBBBBBBB"),
];
