//! Generated texts are read and ordered.

use blif_check::order;
use blif_read::{MAX_TEXT_BYTES, read};
use gen_blif::{MAX_BITS, MAX_TABLES, adder, gen_};
use std::alloc::Global;

fn is_accepted(alloc: Global, text: &[u8]) -> bool {
    if text.len() > MAX_TEXT_BYTES {
        return false;
    }
    let Ok(design) = read(alloc, text) else {
        return false;
    };
    order(alloc, design).is_ok()
}

fn is_generated_one(alloc: Global, seed: u64, tables: u32) -> Option<bool> {
    if tables == 0 || tables > MAX_TABLES {
        return None;
    }
    let text = gen_(alloc, seed, tables).ok()?;
    Some(is_accepted(alloc, text.as_slice()))
}

fn is_adder(alloc: Global, bits: u32) -> Option<bool> {
    if bits == 0 || bits > MAX_BITS {
        return None;
    }
    let text = adder(alloc, bits).ok()?;
    Some(is_accepted(alloc, text.as_slice()))
}

#[test]
fn generated_texts_are_accepted(rt: HostRuntime) {
    let alloc = rt.alloc();
    assert!(rt;
        is_generated_one(alloc, 0, 1) == Some(true)
            && is_generated_one(alloc, 7, 500) == Some(true)
            && is_generated_one(alloc, u64::MAX, MAX_TABLES) == Some(true)
            && is_adder(alloc, 1) == Some(true)
            && is_adder(alloc, 2) == Some(true)
            && is_adder(alloc, MAX_BITS) == Some(true)
    );
}
