//! Numbers as texts.
use fd_scaled::{DecimalFault, Scaled};
use std::alloc::Global;

/// Numbers, and their exact texts.
const EXACT: [(i128, i32, i32, &str); 6] = [
    (1003, -1, -1, "1003*2^-1*10^-1"),
    (7, -1, 0, "7*2^-1"),
    (125, 2, 0, "125*2^2"),
    (-5, 0, 3, "-5*10^3"),
    (0, 0, 0, "0"),
    (
        i128::MIN,
        i32::MIN,
        i32::MAX,
        "-170141183460469231731687303715884105728*2^-2147483648*10^2147483647",
    ),
];

/// Numbers with some decimals: those of a field packed by halves and tenths, ties, signs, and what is too wide.
const ROUNDED: [(i128, i32, i32, u8, &str); 20] = [
    (1003, -1, -1, 1, "50.2"),
    (1016, -1, -1, 1, "50.8"),
    (1029, -1, -1, 1, "51.4"),
    (1042, -1, -1, 1, "52.1"),
    (1, -1, 0, 0, "0"),
    (3, -1, 0, 0, "2"),
    (5, -1, 0, 0, "2"),
    (-1, -1, 0, 0, "0"),
    (-3, -1, 0, 0, "-2"),
    (-5, 0, -3, 2, "0.00"),
    (-6, 0, -3, 2, "-0.01"),
    (7, 2, 1, 0, "280"),
    (5, 0, 0, 30, "5.000000000000000000000000000000"),
    (
        i128::MAX,
        0,
        0,
        0,
        "170141183460469231731687303715884105727",
    ),
    (1, -125, 0, 1, "0.0"),
    (
        0,
        i32::MAX,
        i32::MAX,
        30,
        "0.000000000000000000000000000000",
    ),
    (1, 127, 0, 0, "too wide"),
    (1, -126, 0, 0, "too wide"),
    (0, i32::MIN, 0, 0, "too wide"),
    (1, 0, i32::MAX, 0, "too wide"),
];

/// Tells that the number has this exact text.
fn is_exact(alloc: Global, number: Scaled, want: &str) -> bool {
    match number.text(alloc) {
        Ok(text) => text.as_str() == want,
        Err(_) => false,
    }
}

/// Tells that the number has this text with so many decimals.
fn is_rounded(alloc: Global, number: Scaled, decimals: u8, want: &str) -> bool {
    if decimals > 30 {
        return false;
    }
    match number.decimals(alloc, decimals) {
        Ok(text) => text.as_str() == want,
        Err(fault) => fault == DecimalFault::TooWide && want == "too wide",
    }
}

#[test]
fn exact_texts(rt: HostRuntime) {
    for (n, two, ten, want) in EXACT {
        assert!(rt;
            is_exact(rt.alloc(), Scaled { n, two, ten }, want),
            "{want}"
        );
    }
}

#[test]
fn rounded_texts(rt: HostRuntime) {
    for (n, two, ten, decimals, want) in ROUNDED {
        let number = Scaled { n, two, ten };
        assert!(rt;
            is_rounded(rt.alloc(), number, decimals, want),
            "{n} {want}"
        );
    }
}
