//! The rows of the operator table at their ends, the bytes of values, and names as keys. The
//! expected values are worked by hand.
ghost use Rattle.std.specs.Prelude.{◌≡◌, length};
ghost use Rattle.tso_words.specs.Words.{chunk_size};

use crate::{
    Cell, Chunk, Cond, Name, Op, Val, Words, bytes_of, eval_cond, eval_op, size_of_chunk, val_of,
};
use std::collections::HashMap;
use std::process::Abort;
use std::test::Fail;

const MOST: u32 = 0x7fff_ffff;

const LEAST: u32 = 0x8000_0000;

const ONES: u32 = 0xffff_ffff;

fn expect_answer(rt: &impl Abort, op: Op, args: &[Val], want: Option<Val>) {
    assert_eq!(rt; eval_op(op, args), want, "{op:?} of {args:?}");
}

fn expect_each(rt: &impl Abort, ops: &[Op], args: &[Val], want: Option<Val>) {
    for op in ops {
        expect_answer(rt, *op, args, want);
    }
}

fn expect_two(rt: &impl Abort, op: Op, rows: &[(u32, u32, u32)]) {
    for (a, b, want) in rows {
        expect_answer(
            rt,
            op,
            &[Val::Word(*a), Val::Word(*b)],
            Some(Val::Word(*want)),
        );
    }
}

fn expect_one(rt: &impl Abort, op: Op, rows: &[(u32, u32)]) {
    for (a, want) in rows {
        expect_answer(rt, op, &[Val::Word(*a)], Some(Val::Word(*want)));
    }
}

fn expect_wrong(rt: &impl Abort, ops: &[Op], rows: &[(u32, u32)]) {
    for (a, b) in rows {
        expect_each(rt, ops, &[Val::Word(*a), Val::Word(*b)], None);
    }
}

fn expect_cond(rt: &impl Abort, c: Cond, a: Val, b: Val, want: Option<bool>) {
    assert_eq!(rt; eval_cond(c, a, b), want, "{c:?}");
}

fn expect_bytes(rt: &impl Abort, c: Chunk, v: Val, want: [Cell; 4]) {
    assert_eq!(rt; bytes_of(c, v), want, "{c:?}");
}

fn expect_value(rt: &impl Abort, c: Chunk, cells: &[Cell], want: Val)
    requires { length cells.now ≡ chunk_size c }
{
    assert_eq!(rt; val_of(c, cells), want, "{c:?}");
}

fn expect_sizes(rt: &impl Abort, rows: &[(Chunk, u32)]) {
    for (c, want) in rows {
        assert_eq!(rt; size_of_chunk(*c), *want);
    }
}

#[test]
fn sums_and_products_wrap(rt: HostRuntime) {
    expect_two(
        &rt,
        Op::Add,
        &[
            (0, 0, 0),
            (ONES, 1, 0),
            (MOST, 1, LEAST),
            (LEAST, LEAST, 0),
            (ONES, ONES, 0xffff_fffe),
        ],
    );
    expect_two(
        &rt,
        Op::Sub,
        &[
            (0, 1, ONES),
            (LEAST, 1, MOST),
            (0, LEAST, LEAST),
            (ONES, ONES, 0),
            (1, ONES, 2),
        ],
    );
    expect_two(
        &rt,
        Op::Mul,
        &[
            (0, ONES, 0),
            (ONES, ONES, 1),
            (LEAST, 2, 0),
            (MOST, 2, 0xffff_fffe),
            (MOST, MOST, 1),
        ],
    );
}

#[test]
fn bits_are_joined(rt: HostRuntime) {
    expect_two(
        &rt,
        Op::And,
        &[
            (ONES, LEAST, LEAST),
            (MOST, LEAST, 0),
            (0xf0f0_1234, 0x0ff0_00ff, 0x00f0_0034),
        ],
    );
    expect_two(
        &rt,
        Op::Or,
        &[
            (MOST, LEAST, ONES),
            (0, 0, 0),
            (0xf0f0_1234, 0x0ff0_00ff, 0xfff0_12ff),
        ],
    );
    expect_two(
        &rt,
        Op::Xor,
        &[
            (ONES, ONES, 0),
            (MOST, ONES, LEAST),
            (0xf0f0_1234, 0x0ff0_00ff, 0xff00_12cb),
        ],
    );
}

#[test]
fn division_rounds_toward_zero(rt: HostRuntime) {
    expect_two(
        &rt,
        Op::DivS,
        &[
            (7, 2, 3),
            (0xffff_fff9, 2, 0xffff_fffd),
            (7, 0xffff_fffe, 0xffff_fffd),
            (0xffff_fff9, 0xffff_fffe, 3),
            (LEAST, 1, LEAST),
            (MOST, ONES, 0x8000_0001),
            (LEAST, LEAST, 1),
            (0, ONES, 0),
        ],
    );
    expect_two(
        &rt,
        Op::ModS,
        &[
            (7, 2, 1),
            (0xffff_fff9, 2, ONES),
            (7, 0xffff_fffe, 1),
            (0xffff_fff9, 0xffff_fffe, ONES),
            (LEAST, MOST, ONES),
            (MOST, ONES, 0),
        ],
    );
    expect_two(
        &rt,
        Op::DivU,
        &[(ONES, 2, MOST), (LEAST, ONES, 0), (ONES, 1, ONES)],
    );
    expect_two(
        &rt,
        Op::ModU,
        &[(ONES, LEAST, MOST), (LEAST, ONES, LEAST), (0, 1, 0)],
    );
}

#[test]
fn shifts_go_to_31(rt: HostRuntime) {
    expect_two(
        &rt,
        Op::Shl,
        &[
            (1, 0, 1),
            (1, 31, LEAST),
            (ONES, 31, LEAST),
            (LEAST, 1, 0),
            (ONES, 1, 0xffff_fffe),
        ],
    );
    expect_two(
        &rt,
        Op::ShrS,
        &[
            (LEAST, 0, LEAST),
            (LEAST, 31, ONES),
            (LEAST, 1, 0xc000_0000),
            (MOST, 31, 0),
            (MOST, 30, 1),
            (ONES, 31, ONES),
        ],
    );
    expect_two(
        &rt,
        Op::ShrU,
        &[
            (LEAST, 0, LEAST),
            (LEAST, 31, 1),
            (LEAST, 1, 0x4000_0000),
            (MOST, 31, 0),
            (ONES, 31, 1),
        ],
    );
}

#[test]
fn casts_extend_the_low_bits(rt: HostRuntime) {
    expect_one(
        &rt,
        Op::Neg,
        &[
            (0, 0),
            (1, ONES),
            (LEAST, LEAST),
            (ONES, 1),
            (MOST, 0x8000_0001),
        ],
    );
    expect_one(
        &rt,
        Op::Not,
        &[(0, ONES), (ONES, 0), (LEAST, MOST), (MOST, LEAST)],
    );
    expect_one(
        &rt,
        Op::Cast8s,
        &[
            (0x7f, 0x7f),
            (0x80, 0xffff_ff80),
            (0x1234_5678, 0x78),
            (ONES, ONES),
            (LEAST, 0),
        ],
    );
    expect_one(
        &rt,
        Op::Cast8u,
        &[(0x80, 0x80), (ONES, 0xff), (0x100, 0), (LEAST, 0)],
    );
    expect_one(
        &rt,
        Op::Cast16s,
        &[
            (0x7fff, 0x7fff),
            (0x8000, 0xffff_8000),
            (0x0001_0000, 0),
            (0x1234_f000, 0xffff_f000),
        ],
    );
    expect_one(
        &rt,
        Op::Cast16u,
        &[(0x8000, 0x8000), (ONES, 0xffff), (0x0001_0000, 0)],
    );
}

#[test]
fn comparisons_are_signed_or_unsigned(rt: HostRuntime) {
    expect_two(&rt, Op::Cmp(Cond::Eq), &[(ONES, ONES, 1), (0, ONES, 0)]);
    expect_two(&rt, Op::Cmp(Cond::Ne), &[(ONES, ONES, 0), (0, ONES, 1)]);
    expect_two(
        &rt,
        Op::Cmp(Cond::LtS),
        &[(ONES, 0, 1), (LEAST, MOST, 1), (MOST, LEAST, 0), (0, 0, 0)],
    );
    expect_two(
        &rt,
        Op::Cmp(Cond::LeS),
        &[(LEAST, ONES, 1), (0, 0, 1), (0, ONES, 0)],
    );
    expect_two(
        &rt,
        Op::Cmp(Cond::GtS),
        &[(0, ONES, 1), (MOST, LEAST, 1), (LEAST, MOST, 0), (1, 1, 0)],
    );
    expect_two(
        &rt,
        Op::Cmp(Cond::GeS),
        &[(LEAST, LEAST, 1), (0, ONES, 1), (LEAST, ONES, 0)],
    );
    expect_two(
        &rt,
        Op::Cmp(Cond::LtU),
        &[(0, ONES, 1), (MOST, LEAST, 1), (ONES, 0, 0), (1, 1, 0)],
    );
    expect_two(
        &rt,
        Op::Cmp(Cond::LeU),
        &[(ONES, ONES, 1), (0, ONES, 1), (LEAST, MOST, 0)],
    );
    expect_two(
        &rt,
        Op::Cmp(Cond::GtU),
        &[(ONES, 0, 1), (LEAST, MOST, 1), (0, 0, 0)],
    );
    expect_two(
        &rt,
        Op::Cmp(Cond::GeU),
        &[(0, 0, 1), (ONES, 0, 1), (MOST, LEAST, 0)],
    );
}

#[test]
fn wrong_operations(rt: HostRuntime) {
    let signed = [Op::DivS, Op::ModS];
    expect_wrong(&rt, &signed, &[(1, 0), (0, 0), (LEAST, 0), (LEAST, ONES)]);
    expect_wrong(&rt, &[Op::DivU, Op::ModU], &[(1, 0), (0, 0), (ONES, 0)]);
    expect_wrong(
        &rt,
        &[Op::Shl, Op::ShrS, Op::ShrU],
        &[(1, 32), (0, 32), (1, ONES)],
    );
}

#[test]
fn operands_are_counted(rt: HostRuntime) {
    let one = [
        Op::Neg,
        Op::Not,
        Op::Cast8s,
        Op::Cast8u,
        Op::Cast16s,
        Op::Cast16u,
    ];
    let two = [Op::Add, Op::DivU, Op::Shl, Op::Cmp(Cond::Eq)];
    expect_each(&rt, &one, &[], None);
    expect_each(&rt, &one, &[Val::Word(1), Val::Word(1)], None);
    expect_each(&rt, &two, &[Val::Undef], None);
    expect_each(&rt, &two, &[Val::Word(1), Val::Word(1), Val::Word(1)], None);
    expect_each(&rt, &one, &[Val::Undef], Some(Val::Undef));
}

#[test]
fn operands_that_are_not_known(rt: HostRuntime) {
    let total = [
        Op::Add,
        Op::Sub,
        Op::Mul,
        Op::And,
        Op::Or,
        Op::Xor,
        Op::Cmp(Cond::LeU),
    ];
    let divisions = [Op::DivS, Op::ModS, Op::DivU, Op::ModU];
    let shifts = [Op::Shl, Op::ShrS, Op::ShrU];
    let (word, undef) = (Val::Word(1), Val::Undef);
    for args in &[[undef, word], [word, undef], [undef, undef]] {
        expect_each(&rt, &total, args, Some(undef));
        expect_each(&rt, &divisions, args, None);
        expect_cond(&rt, Cond::Eq, args[0], args[1], None);
    }
    expect_each(&rt, &shifts, &[undef, Val::Word(31)], Some(undef));
    expect_each(&rt, &shifts, &[undef, Val::Word(32)], None);
    expect_each(&rt, &shifts, &[word, undef], None);
    expect_cond(&rt, Cond::LtS, Val::Word(ONES), word, Some(true));
    expect_cond(&rt, Cond::LtS.negate(), Val::Word(ONES), word, Some(false));
}

#[test]
fn bytes_are_little_endian(rt: HostRuntime) {
    let word = Val::Word(0x1234_85f6);
    let (b0, b1, b2, b3) = (
        Cell::Byte(0xf6),
        Cell::Byte(0x85),
        Cell::Byte(0x34),
        Cell::Byte(0x12),
    );
    let blank = Cell::Blank;
    expect_sizes(
        &rt,
        &[
            (Chunk::I8s, 1),
            (Chunk::I8u, 1),
            (Chunk::I16s, 2),
            (Chunk::I16u, 2),
            (Chunk::I32, 4),
        ],
    );
    expect_bytes(&rt, Chunk::I8s, word, [b0, blank, blank, blank]);
    expect_bytes(&rt, Chunk::I16u, word, [b0, b1, blank, blank]);
    expect_bytes(&rt, Chunk::I32, word, [b0, b1, b2, b3]);
    expect_bytes(&rt, Chunk::I32, Val::Undef, [blank, blank, blank, blank]);
    expect_value(&rt, Chunk::I8s, &[b0], Val::Word(0xffff_fff6));
    expect_value(&rt, Chunk::I8u, &[b0], Val::Word(0xf6));
    expect_value(&rt, Chunk::I8u, &[blank], Val::Undef);
    expect_value(&rt, Chunk::I16s, &[b0, b1], Val::Word(0xffff_85f6));
    expect_value(&rt, Chunk::I16u, &[b0, b1], Val::Word(0x85f6));
    expect_value(&rt, Chunk::I16s, &[b0, blank], Val::Undef);
    expect_value(&rt, Chunk::I32, &[b0, b1, b2, b3], word);
    expect_value(&rt, Chunk::I32, &[b0, b1, blank, b3], Val::Undef);
}

#[test]
fn names_are_keys(rt: HostRuntime) -> Result<(), Fail> {
    let main = Name::made(rt.alloc(), b"main")?;
    let other = Name::made(rt.alloc(), b"mail")?;
    assert!(rt; other < main);
    let mut places = HashMap::new(rt.alloc());
    places.insert(main.clone()?, 3)?;
    assert_eq!(rt; places.get(&main).copied(), Some(3));
    assert_eq!(rt; places.get(&other).copied(), None);
    Ok(())
}

#[test]
fn words_are_their_list(rt: HostRuntime) -> Result<(), Fail> {
    let words = Words::made(rt.alloc(), &[1, 0, ONES])?;
    assert_eq!(rt; words.list(), [1, 0, ONES].as_slice());
    assert!(rt; words == words.clone()?);
    Ok(())
}
