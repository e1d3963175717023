//! Bytes that are nearly an image, and images at their limits.
use crate::expecting::expect_equal;
use g1_image::{decode, encode};
use g1_testing::raw;
use g1_text::{image_lines, make};
use g1_words::Fault;
use std::alloc::Global;
use std::process::Abort;
use std::test::Fail;

// Whether the bytes are written again as they are, or else refused for what they say.
fn is_kept_or_refused(alloc: Global, bytes: &[u8]) -> Result<bool, Fault> {
    match decode(alloc, bytes) {
        Ok(image) => Ok(encode(alloc, &image)?.as_slice() == bytes),
        Err(fault) => Ok(fault.status() == 3),
    }
}

fn expect_kept_or_refused<T: Abort>(rt: &T, alloc: Global, bytes: &mut [u8]) -> Result<(), Fault> {
    for at in 0..bytes.len() {
        let was = bytes[at];
        for byte in 0..=255u8 {
            bytes[at] = byte;
            let is_so = is_kept_or_refused(alloc, bytes)?;
            expect_equal(rt, (at, byte, is_so), (at, byte, true));
        }
        bytes[at] = was;
    }
    Ok(())
}

// An object that a slot outside references.
const OUTSIDE_SLOT: &str = "G1IMAGE2 16 4 4 0 0 4 1,2,0 1,3,0 0,0,0*2 0 1 0 0 0 2/1 =17 3/0 =1 =2";

#[test]
fn a_changed_byte_is_refused_or_kept(rt: HostRuntime) -> Result<(), Fault> {
    let mut bytes = raw(rt.alloc(), OUTSIDE_SLOT)?;
    expect_kept_or_refused(&rt, rt.alloc(), bytes.as_mut_slice())
}

// Images with as many roots, objects in a region, cards or regions as there may be, and one that has the last region current.
const LIMITS: [&str; 5] = [
    "G1IMAGE2 16 4 2 65536 0 2 0,0,0*2 =0*65536 0*2",
    "G1IMAGE2 65536 64 2 0 0 2 1,65536,1 0,0,0 0*2 1/0*65536",
    "G1IMAGE2 65536 4 5 0 81920 5 1,1,0*5 0..81920 1,65536 0*3 65536,0..65536 1/0*5",
    "G1IMAGE2 16 4 4096 1 0 4096 1,2,0*4096 =65522 0*4096 1/0*8192",
    "G1IMAGE2 16 4 4096 1 0 4095 1,2,0*4096 =65522 0*4096 1/0*8192",
];

// Whether the bytes of an image are those of it when it is printed as lines and made of them again.
fn is_made_again(alloc: Global, bytes: &[u8]) -> Result<bool, Fail> {
    let image = decode(alloc, bytes)?;
    let lines = image_lines(alloc, &image)?;
    Ok(make(alloc, lines.as_bytes())?.as_slice() == bytes)
}

#[test]
fn prints_and_makes_images_at_their_limits(rt: HostRuntime) -> Result<(), Fail> {
    for numbers in LIMITS.iter() {
        let bytes = raw(rt.alloc(), numbers)?;
        let is_so = is_made_again(rt.alloc(), &bytes)?;
        expect_equal(&rt, (*numbers, is_so), (*numbers, true));
    }
    Ok(())
}
