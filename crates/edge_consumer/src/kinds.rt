// The kinds of the table's entries, in order.

use consumer::Kind::{self, FirstRow as F, Plain as P, Transition as T};

pub const KINDS: [Kind; 226] = [
    // A
    P, T, P, P, P, T, P,
    // B
    F, F, F, F, F, F, F, F, F, F, F, F, F, F, F, T, T, T, T, T, T, T, T, T, T, T, T, T, T, T, T,
    // C
    T, T, T, T, T, T, T, T, T, T, P, P,
    // D
    P, P, P, P, P, P, P, P, P, P, P, P, P, P, P, P, P, P, P, P, P, P, P, P, P,
    // E
    T, T, P, P, P, P, P,
    // F to J
    P, P, P, P, P, P, P, P, P, P, P, P, P, P, P, P, P, P, P, P, P, P, P, P, P, P, P, P, P, P, P, P,
    P, P, P, P, P, P, P, P, P, P, P, P, P, P, P, P, P, P, P, P, P, P, P, P, P, P, P, P, P, P, P, P,
    P, P, P,
    // K
    T, T, T, T, T, T, T, T, T, T,
    // L and M
    P, P, P, P, P, P, P, P, P, P, P, P, P, P, P, P, P, P, P, P, P, P, P, P, P,
    // N
    P, P, P, P, P, P, P, P, P, P, T, T, P, P, P, P, P, P, P, P, P, P, P, P, P, P, P, P, P, P, P, P,
    P, P, P, P, P, P, P, P, P, P,
];
