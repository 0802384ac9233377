//! Lengths and angles of lines.

/// The square root of a number that is not below 0.
pub(crate) fn root(square: f64) -> f64 {
    if square <= 0.0 {
        return 0.0;
    }
    let mut root = if square < 1.0 { 1.0 } else { square };
    for _ in 0..64 {
        let next = (root + square / root) / 2.0;
        if next >= root {
            break;
        }
        root = next;
    }
    root
}

/// The length of a line that goes so far across and down.
pub(crate) fn length_of(across: f64, down: f64) -> f64 {
    root(across * across + down * down)
}

/// The angle of a line that falls by so much for each step across, in degrees.
pub(crate) fn degrees_of(fall: f64) -> f64 {
    // Half the angle falls by fall / (1 + root(1 + fall^2)); an eighth is small enough for a short series.
    let mut eighth = fall;
    for _ in 0..3 {
        eighth = eighth / (1.0 + root(1.0 + eighth * eighth));
    }
    let square = eighth * eighth;
    let mut sum = 0.0;
    let mut power = eighth;
    let mut odd = 1.0;
    for _ in 0..12 {
        sum += power / odd;
        power = 0.0 - power * square;
        odd += 2.0;
    }
    sum * 8.0 * 180.0 / 3.141592653589793
}
