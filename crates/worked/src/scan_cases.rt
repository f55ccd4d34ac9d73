// Scans in the PGM format: what is read of them, and what is refused.
use scans::read;
use std::alloc::{AllocError, Global};
use std::process::Abort;
use std::test::Fail;

// What is read of some bytes, in one line: width, height, maximum value and pixels, or the fault.
fn told(heap: Global, bytes: &[u8]) -> Result<String, AllocError> {
    match read(heap, bytes) {
        Ok(scan) => {
            let scan = scan?;
            let width = scan.width;
            let height = scan.height;
            let maximum = scan.maximum;
            let pixels = scan.pixels.as_slice();
            format!(in heap; "{width} {height} {maximum} {pixels:?}")
        }
        Err(fault) => format!(in heap; "{fault}"),
    }
}

// Each case is some bytes, and what is read of them.
fn check(rt: &impl Abort, heap: Global, cases: &[(&[u8], &str)]) -> Result<(), Fail> {
    for (bytes, expected) in cases {
        let line = told(heap, bytes)?;
        assert_eq!(rt; line.as_str(), *expected);
    }
    Ok(())
}

#[test]
fn scans(rt: HostRuntime) -> Result<(), Fail> {
    let cases: [(&[u8], &str); 7] = [
        (b"P5 2 1 255 \x00\xff", "2 1 255 [0, 255]"),
        (b"P5\n1\n2\n9\n\x09\x00", "1 2 9 [9, 0]"),
        // Comments right after the magic number and after a digit, one with a digit in it, one that is empty, two in a row.
        (
            b"P5#a\n3#b 7\r\t1 #\n# 4\n5\x0b\x01\x02\x03",
            "3 1 5 [1, 2, 3]",
        ),
        // What looks like a comment or white space in the raster is a pixel.
        (b"P5 2 1 99\n#\n", "2 1 99 [35, 10]"),
        (b"P5 2 1 1023\n\x03\xff\x01\x02", "2 1 1023 [1023, 258]"),
        (b"P5 0002 01 256\r\x01\x00\x00\x01", "2 1 256 [256, 1]"),
        (b"P5 1 1 00000000000000000000255\x0c\x80", "1 1 255 [128]"),
    ];
    check(&rt, rt.alloc(), &cases)
}

#[test]
fn faults(rt: HostRuntime) -> Result<(), Fail> {
    let cases: [(&[u8], &str); 16] = [
        (b"", "the input does not begin with P5"),
        (b"P2 1 1 9 5", "the input does not begin with P5"),
        (b"P52 1 255 \x00\xff", "the width is missing"),
        (b"P5 # 1 1 9", "the width is missing"),
        (b"P5 1 x 9 ", "the height is missing"),
        (b"P5 1 1", "the maximum value is missing"),
        (b"P5 65536 1 9 ", "the width is above 65535"),
        (b"P5 1 18446744073709551617 9 ", "the height is above 65535"),
        (b"P5 1 0 9 ", "the width or the height is 0"),
        (
            b"P5 1 1 0 \x00",
            "the maximum value is not one of 1 to 1023",
        ),
        (
            b"P5 1 1 1024 \x00\x00",
            "the maximum value is not one of 1 to 1023",
        ),
        (b"P5 1 1 9", "no white space follows the maximum value"),
        (
            b"P5 1 1 9#\n\x00",
            "no white space follows the maximum value",
        ),
        (
            b"P5 2 1 256 \x00\x00\x01",
            "the input ends before the last pixel",
        ),
        (
            b"P5 1 1 9\r\n\x00",
            "bytes are left over after the last pixel",
        ),
        (b"P5 1 1 999 \x03\xe8", "a pixel is above the maximum value"),
    ];
    check(&rt, rt.alloc(), &cases)
}
