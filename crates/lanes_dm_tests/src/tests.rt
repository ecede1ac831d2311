ghost use Rattle.std.specs.Prelude.{◌<◌, ◌≤◌};

use lanes_dm::{
    ByteClass, and_into, count_byte, first_of, has_zero, mask_eq, mask_ne, mask_nonzero, mask_same,
};
use std::process::Abort;

// Every length from none to a byte more than two vectors, with a hit at no place and at each.
#[test]
fn scans_bytes(rt: HostRuntime) {
    let quote = ByteClass::new().with(b'"');
    for n in 0..66usize {
        let bytes = [b'a'; 65];
        let part = &bytes[..n];
        assert_eq!(rt; first_of(part, &quote), None, "length {n}");
        assert_eq!(rt; count_byte(part, b'a'), n);
        assert_eq!(rt; count_byte(part, b'"'), 0, "length {n}");
    }
    for k in 0..65usize {
        let mut bytes = [b'a'; 65];
        bytes[64] = b'"';
        bytes[k] = b'"';
        assert_eq!(rt; first_of(&bytes, &quote), Some(k));
        assert_eq!(rt; first_of(&bytes[..k], &quote), None, "place {k}");
        assert_eq!(rt;
            count_byte(&bytes[..64], b'"'),
            usize::from(k < 64),
            "place {k}"
        );
    }
}

// The bytes that no reference between angle brackets has, in a whole vector and in a tail.
#[test]
fn tells_each_byte(rt: HostRuntime) {
    let mut refused = ByteClass::new();
    for b in 0..=32u8 {
        refused = refused.with(b);
    }
    for b in *b"<>\"{}|^`\\" {
        refused = refused.with(b);
    }
    for b in 0..=255u8 {
        let wanted = b <= 32 || b"<>\"{}|^`\\".contains(&b);
        let mut text = [b'a'; 40];
        text[7] = b;
        text[35] = b;
        assert_eq!(rt; refused.has(b), wanted, "byte {b}");
        assert!(rt; !ByteClass::new().has(b), "byte {b}");
        let first = if wanted { Some(7) } else { None };
        assert_eq!(rt; first_of(&text, &refused), first, "byte {b}");
        let last = if wanted { Some(3) } else { None };
        assert_eq!(rt; first_of(&text[32..], &refused), last, "byte {b}");
    }
}

// The masks of n rows 7, but for a 0 at row k.
fn masks_row<R: Abort>(rt: &R, n: usize, k: usize)
    requires row { k < n }
    requires size { n ≤ 33 }
{
    let mut column = [7u32; 33];
    column[k] = 0;
    let column = &column[..n];
    let mut hits = [9u8; 33];
    mask_eq(column, 0, &mut hits[..n]);
    let mut others = [9u8; 33];
    mask_ne(column, 0, &mut others[..n]);
    let mut bound = [9u8; 33];
    mask_nonzero(column, &mut bound[..n]);
    let mut same = [9u8; 33];
    mask_same(column, &[7; 33][..n], &mut same[..n]);
    for i in 0..n {
        let (hit, other) = if i == k { (1, 0) } else { (0, 1) };
        assert_eq!(rt;
            [hits[i], others[i], bound[i], same[i]],
            [hit, other, other, other],
            "row {k} of {n}"
        );
    }
    assert!(rt; has_zero(column), "row {k} of {n}");
}

// Every length from none to a row more than two vectors, with a hit at each row.
#[test]
fn masks_columns(rt: HostRuntime) {
    for n in 0..34usize {
        assert!(rt; !has_zero(&[7; 33][..n]), "length {n}");
        for k in 0..n {
            masks_row(&rt, n, k);
        }
    }
}

// A mask counts every byte but 0 as set, and is left with 1 and 0 alone.
#[test]
fn joins_masks(rt: HostRuntime) {
    for n in 0..66usize {
        let mut a = [0u8; 65];
        let mut b = [0u8; 65];
        for i in 0..65usize {
            a[i] = if i % 2 == 0 { 0 } else { 255 };
            b[i] = if i % 3 == 0 { 0 } else { 2 };
        }
        and_into(&mut a[..n], &b[..n]);
        for i in 0..n {
            let wanted = if i % 6 == 1 || i % 6 == 5 { 1 } else { 0 };
            assert_eq!(rt; a[i], wanted, "row {i} of {n}");
        }
    }
}

#[test]
fn gives_the_worked_answers(rt: HostRuntime) {
    let quote = ByteClass::new().with(b'"');
    assert_eq!(rt; first_of(b"", &quote), None);
    let mut text = [b'a'; 65];
    text[64] = b'"';
    assert_eq!(rt; first_of(&text, &quote), Some(64));
    assert_eq!(rt; count_byte(&text[..33], b'a'), 33);
    let mut mask = [9u8; 3];
    mask_eq(&[5, 0, 5], 5, &mut mask);
    assert_eq!(rt; mask, [1, 0, 1]);
    let mut column = [7u32; 41];
    column[40] = 0;
    assert!(rt; has_zero(&column));
    assert!(rt; !has_zero(&[]));
}
