// Pieces of lines, and numbers.
use crate::bits::{bits_of, count_of};
use crate::piece::next_piece;
use std::test::Fail;

#[test]
fn numbers_are_read(rt: HostRuntime) {
    let bytes: [(&[u8], Option<u32>); 10] = [
        (b"255", Some(255)),
        (b"256", None),
        (b"-128", Some(128)),
        (b"-129", None),
        (b"-1", Some(255)),
        (b"-0", Some(0)),
        (b"0xfF", Some(255)),
        (b"0X1", None),
        (b"-0x1", None),
        (b"010", Some(10)),
    ];
    for (word, bits) in bytes {
        assert!(rt; bits_of(128, word) == bits);
    }
    let words: [(&[u8], Option<u32>); 4] = [
        (b"4294967295", Some(4_294_967_295)),
        (b"4294967296", None),
        (b"-2147483648", Some(2_147_483_648)),
        (b"-2147483649", None),
    ];
    for (word, bits) in words {
        assert!(rt; bits_of(2_147_483_648, word) == bits);
    }
    let counts: [(&[u8], Option<u128>); 5] = [
        (b"340282366920938463463374607431768211455", Some(u128::MAX)),
        (b"340282366920938463463374607431768211456", None),
        (b"-1", None),
        (b"", None),
        (b"5x", None),
    ];
    for (word, count) in counts {
        assert!(rt; count_of(word) == count);
    }
}

#[test]
fn pieces_are_cut(rt: HostRuntime) {
    let rows: [(&[u8], &[u8]); 6] = [
        (b" \tmovl $5", b"movl"),
        (b"$ 5", b"$"),
        (b"%eax,", b"%eax"),
        (b"% eax", b"%"),
        (b"-4(%ebp)", b"-4"),
        (b".L0:", b".L0"),
    ];
    for (line, word) in rows {
        match next_piece(line) {
            Some(piece) => assert!(rt; piece.word == word),
            None => assert!(rt; false),
        }
    }
    assert!(rt; next_piece(b" \t").is_none());
}
