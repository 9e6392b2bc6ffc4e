// Keys to the library's line keeper.
use crate::output::Out;
use console_figures::front;
use rules::{Keeper, MOST_TEXT};
use std::fmt;
use std::fmt::Write;

// The most keys of a line that is run whole.
const MOST_KEYS: usize = 2048;

// The value of the answer to a key that makes the line ready.
const READY: u32 = 1;

// What a run of keys leaves: the keeper, whether its line is ready, and how many keys were refused.
#[derive(Clone, Copy)]
struct Left {
    keeper: Keeper,
    ready: bool,
    refused: u64,
}

// Takes keys in hexadecimal to an empty keeper, and writes what they leave.
pub fn run(digits: &[u8]) -> fmt::Result {
    let mut keys = [0u8; MOST_KEYS];
    match console_figures::decode(digits, &mut keys) {
        Ok(n) => write_left(digits, press_all(front(&keys, n))),
        Err(_) => Out.write_str("no hexadecimal"),
    }
}

// Takes one key after the other.
fn press_all(keys: &[u8]) -> Left {
    let mut left = Left {
        keeper: Keeper {
            bytes: [0; MOST_TEXT],
            count: 0,
        },
        ready: false,
        refused: 0,
    };
    for key in keys {
        left = press(left, *key);
    }
    left
}

// Takes one key. A refused key leaves the line as it was, ready or not.
fn press(left: Left, key: u8) -> Left {
    let pressed = mml::key(left.keeper, key);
    let keeper = pressed.keeper;
    match pressed.answer {
        Ok(value) => Left {
            keeper,
            ready: value == READY,
            refused: left.refused,
        },
        Err(_) => Left {
            keeper,
            ready: left.ready,
            refused: left.refused.saturating_add(1),
        },
    }
}

// Writes the keys, the bytes held after them, whether these are ready, and how many keys were refused, if any were.
fn write_left(digits: &[u8], left: Left) -> fmt::Result {
    let mut out = Out;
    out.write_bytes(digits)?;
    out.write_str(" -> ")?;
    let bytes = left.keeper.bytes;
    out.write_hex(front(&bytes, left.keeper.count as usize))?;
    out.write_str(if left.ready {
        " | ready"
    } else {
        " | not ready"
    })?;
    match left.refused {
        0 => Ok(()),
        n => write!(out, " | refused: {n}"),
    }
}
