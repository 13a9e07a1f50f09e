//! An entry of three records, and what is found where it is spoilt: a letter for the kind of fault, or O for none, and
//! its place. Written by scripts/spoilt_entries.py.

/// The entry: a record, a record set of two members, and a record.
pub static ENTRY: [u8; 86] = [
    1, 0, 0, 3, 0, 0, 0, 78, 0, 0, 0, 7, 0, 0, 0, 0, 0, 0, 0, 0, 0, 0, 0, 5, 0, 0, 0, 2, 104, 105,
    0, 0, 0, 8, 0, 0, 0, 4, 0, 0, 0, 0, 0, 0, 0, 5, 0, 0, 0, 15, 0, 0, 0, 2, 0, 0, 0, 1, 99, 0, 0,
    0, 2, 100, 101, 0, 0, 0, 10, 0, 0, 0, 0, 0, 0, 0, 0, 0, 0, 0, 6, 0, 0, 0, 1, 120,
];

/// What is found with the lowest bit of each byte turned, by its place.
pub fn changed() -> &'static str {
    "
F0 C1 S86 L65 S4 S4 S4 S4 B30 B30 B30 B30 F12 F12 F12 F12 X38 X38 X38 X38
X38 X38 X38 O0 T24 S28 S28 B31 O0 O0 B30 B30 B30 B30 F34 F34 F34 F34 X73 X73
X73 X73 X73 X73 X73 X38 T46 S50 S50 S63 C50 F51 B52 S65 S58 S58 S58 S62 O0 S63
S63 S63 S63 O0 O0 B65 B65 B65 B65 F69 F69 F69 F69 O0 O0 O0 O0 O0 O0 O0
O0 T81 S85 S85 L85 O0
"
}

/// What is found in the first bytes, by how many they are.
pub fn cut_off() -> &'static str {
    "
S0 S1 S2 S2 S4 S4 S4 S4 S4 S4 S4 S4 S4 S4 S4 S4 S4 S4 S4 S4
S4 S4 S4 S4 S4 S4 S4 S4 S4 S4 S4 S4 S4 S4 S4 S4 S4 S4 S4 S4
S4 S4 S4 S4 S4 S4 S4 S4 S4 S4 S4 S4 S4 S4 S4 S4 S4 S4 S4 S4
S4 S4 S4 S4 S4 S4 S4 S4 S4 S4 S4 S4 S4 S4 S4 S4 S4 S4 S4 S4
S4 S4 S4 S4 S4 S4
"
}

/// What is found in them where the header says so many, from 0 behind it.
pub fn cut_short() -> &'static str {
    "
S8 S8 S8 S8 S12 S12 S12 S12 S16 S16 S16 S16 S16 S16 S16 S16 S24 S24 S24 S24
S28 S28 S30 S30 S30 S30 S34 S34 S34 S34 S38 S38 S38 S38 S38 S38 S38 S38 S46 S46
S46 S46 S50 S50 S50 S50 S50 S50 S50 S50 S50 S50 S50 S50 S50 S50 S50 S65 S65 S65
S65 S69 S69 S69 S69 S73 S73 S73 S73 S73 S73 S73 S73 S81 S81 S81 S81 S85
"
}

/// What is found with a byte more, where the header doesn't count it, and where it does.
pub fn added() -> &'static str {
    "
L86 L86
"
}
