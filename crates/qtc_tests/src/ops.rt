use qtc_base::{Bytes, List, NoMemory, Value};
use qtc_ops::*;
use std::alloc::Global;
use std::process::Abort;
use std::test::Fail;

/// The first use of the crate's page.
#[test]
fn guests_are_joined(rt: HostRuntime) -> Result<(), Fail> {
    let alloc = rt.alloc();
    let pred = Pred::Contains(Bytes::from_slice(alloc, b"#")?);
    let mut guests = OpFn::new(alloc, ItemOp::Keep { not: true, pred });
    let join = FoldOp::Join(Bytes::from_slice(alloc, b", ")?);
    let mut names = join.start(alloc)?;
    for (index, line) in [(0, b"Ada".as_slice()), (1, b"# no guest"), (2, b"Grace")] {
        if let Some(name) = guests.apply(index, line)? {
            join.step(&mut names, name.as_slice())?;
        }
    }
    assert_eq!(rt;
        join.text(alloc, &names)?.as_slice(),
        b"Ada, Grace".as_slice()
    );
    assert_eq!(rt; guests.calls(), [0, 1, 2].as_slice());
    Ok(())
}

/// The value of an item by an operation, as text; None where it is dropped.
fn value_of(alloc: Global, op: ItemOp, item: &[u8]) -> Result<Option<Bytes>, ItemFault> {
    apply_once(&mut OpFn::new(alloc, op), item)
}

/// One call through the trait.
fn apply_once<F: ItemFn>(item_fn: &mut F, item: &[u8]) -> Result<Option<Bytes>, ItemFault> {
    item_fn.apply(0, item)
}

fn assert_maps(rt: &(impl Abort + Alloc<A = Global>), op: MapOp, item: &[u8], want: &[u8]) {
    match value_of(rt.alloc(), ItemOp::Map(op), item) {
        Ok(Some(text)) => assert_eq!(rt; text.as_slice(), want, "{op:?} of {item:?}"),
        _ => assert!(rt; false, "{op:?} of {item:?} has no value"),
    }
}

#[test]
fn maps_give_their_row(rt: HostRuntime) {
    let fields = b" one\t\ttwo  th\rree ".as_slice();
    for item in [b"".as_slice(), b"a b".as_slice(), fields] {
        assert_maps(&rt, MapOp::Same, item, item);
    }
    for (item, want) in [(b"".as_slice(), b"0".as_slice()), (fields, b"18")] {
        assert_maps(&rt, MapOp::Length, item, want);
    }
    for (number, want) in [
        (1, b"one".as_slice()),
        (2, b"two"),
        (3, b"th\rree"),
        (4, b""),
        (1000, b""),
    ] {
        assert_maps(&rt, MapOp::Field(number), fields, want);
        assert_maps(&rt, MapOp::Field(number), b"", b"");
        assert_maps(&rt, MapOp::Field(number), b"\t ", b"");
    }
}

#[test]
fn digests_are_those_of_the_standard(rt: HostRuntime) {
    for (item, want) in [
        (
            b"".as_slice(),
            b"e3b0c44298fc1c149afbf4c8996fb92427ae41e4649b934ca495991b7852b855".as_slice(),
        ),
        (
            b"abc",
            b"ba7816bf8f01cfea414140de5dae2223b00361a396177a9cb410ff61f20015ad",
        ),
        (
            b"abcdbcdecdefdefgefghfghighijhijkijkljklmklmnlmnomnopnopq",
            b"248d6a61d20638b8e5c026930c3e6039a33ce45964ff2167f6ecedd419db06c1",
        ),
    ] {
        assert_maps(&rt, MapOp::Digest, item, want);
    }
}

#[test]
fn numbers_have_up_to_19_digits(rt: HostRuntime) {
    for (item, want) in [
        (b"0".as_slice(), b"0".as_slice()),
        (b"007", b"7"),
        (b"0000000000000000000", b"0"),
        (b"9999999999999999999", b"9999999999999999999"),
    ] {
        assert_maps(&rt, MapOp::Number, item, want);
    }
    for item in [
        b"".as_slice(),
        b"1x",
        b"-1",
        b" 1",
        b"10000000000000000000",
        b"00000000000000000001",
    ] {
        let value = value_of(rt.alloc(), ItemOp::Map(MapOp::Number), item);
        assert!(rt; matches!(value, Err(ItemFault::Bad)), "at {item:?}");
    }
}

/// Asserts whether a predicate keeps an item, and that with `not` it is the other way round.
fn assert_keeps(
    rt: &(impl Abort + Alloc<A = Global>),
    pred: Pred,
    item: &[u8],
    want: bool,
) -> Result<(), NoMemory> {
    let other = pred.copy()?;
    assert_eq!(rt; pred.keeps(item), want, "at {item:?}");
    for (not, pred) in [(false, pred), (true, other)] {
        match value_of(rt.alloc(), ItemOp::Keep { not, pred }, item) {
            Ok(Some(text)) => {
                assert_eq!(rt; want, !not, "at {item:?}");
                assert_eq!(rt; text.as_slice(), item);
            }
            Ok(None) => assert_eq!(rt; want, not, "at {item:?}"),
            Err(_) => assert!(rt; false, "at {item:?}"),
        }
    }
    Ok(())
}

#[test]
fn patterns_match_whole_items(rt: HostRuntime) -> Result<(), Fail> {
    for (pattern, item, want) in [
        (b"*".as_slice(), b"".as_slice(), true),
        (b"*", b"abc", true),
        (b"?", b"", false),
        (b"?", b"a", true),
        (b"?", b"ab", false),
        (b"**", b"", true),
        (b"**", b"xy", true),
        (b"a*b*c", b"abc", true),
        (b"a*b*c", b"aXbYc", true),
        (b"a*b*c", b"acb", false),
        (b"a*b*c", b"abcbc", true),
        (b"a*b*c", b"abcb", false),
        (b"", b"", true),
        (b"", b"a", false),
        (b"abc", b"ab", false),
        (b"*aab", b"aaab", true),
        (b"a*?c", b"ac", false),
        (b"a*?c", b"abc", true),
        (b"*?*", b"", false),
        (b"*ab*ab", b"aab", false),
        (b"a?c", b"a?c", true),
    ] {
        let pred = Pred::Wildcard(Bytes::from_slice(rt.alloc(), pattern)?);
        assert_keeps(&rt, pred, item, want)?;
    }
    Ok(())
}

#[test]
fn literals_and_lengths_keep_items(rt: HostRuntime) -> Result<(), Fail> {
    for (literal, item, want) in [
        (b"ab".as_slice(), b"abc".as_slice(), true),
        (b"bc", b"abc", true),
        (b"aab", b"aaab", true),
        (b"ac", b"abc", false),
        (b"abcd", b"abc", false),
        (b"a", b"", false),
        (b"", b"", true),
    ] {
        let pred = Pred::Contains(Bytes::from_slice(rt.alloc(), literal)?);
        assert_keeps(&rt, pred, item, want)?;
    }
    for (bound, want) in [(0, true), (2, true), (3, false), (67_108_864, false)] {
        assert_keeps(&rt, Pred::Longer(bound), b"abc", want)?;
    }
    Ok(())
}

#[test]
fn calls_are_listed(rt: HostRuntime) {
    let mut numbers = OpFn::new(rt.alloc(), ItemOp::Map(MapOp::Number));
    assert!(rt; numbers.apply(4, b"1").is_ok());
    assert!(rt; numbers.apply(2, b"x").is_err());
    assert!(rt; numbers.apply(2, b"3").is_ok());
    assert_eq!(rt; numbers.calls(), [4, 2, 2].as_slice());
}

/// The text of a fold over some values, through the trait.
fn fold_text<F: Fold>(alloc: Global, fold: &F, values: &[&[u8]]) -> Result<Bytes, ItemFault>
where
    F::Acc: Drop,
{
    let mut acc = fold.start(alloc)?;
    for value in values {
        fold.step(&mut acc, value)?;
    }
    Ok(fold.text(alloc, &acc)?)
}

fn assert_folds(
    rt: &(impl Abort + Alloc<A = Global>),
    fold: &FoldOp,
    values: &[&[u8]],
    want: &[u8],
) {
    match fold_text(rt.alloc(), fold, values) {
        Ok(text) => assert_eq!(rt; text.as_slice(), want, "over {values:?}"),
        Err(_) => assert!(rt; false, "over {values:?}"),
    }
}

#[test]
fn folds_give_their_row(rt: HostRuntime) -> Result<(), Fail> {
    let none: [&[u8]; 0] = [];
    let three = [b"a".as_slice(), b"b", b"a"];
    let join = FoldOp::Join(Bytes::from_slice(rt.alloc(), b"-")?);
    for (fold, of_none, of_three) in [
        (FoldOp::Count, b"0".as_slice(), b"3".as_slice()),
        (FoldOp::Size, b"0", b"3"),
        (join, b"", b"a-b-a"),
        (
            FoldOp::Chain,
            b"0000000000000000000000000000000000000000000000000000000000000000",
            b"87aab4acd736038325648f06bdf01f696738a5d9827116f2a5e2aad5079e3ea9",
        ),
        (FoldOp::Greatest, b"", b"b"),
        (FoldOp::Tally, b"", b"a=2;b=1"),
    ] {
        let fold = fold.copy()?;
        assert_folds(&rt, &fold, &none, of_none);
        assert_folds(&rt, &fold, &three, of_three);
    }
    assert_folds(
        &rt,
        &FoldOp::Greatest,
        &[b"ab".as_slice(), b"abc", b"ab"],
        b"abc",
    );
    assert_folds(&rt, &FoldOp::Tally, &[b"".as_slice(), b"x", b""], b"=2;x=1");
    Ok(())
}

#[test]
fn sums_take_numbers_alone(rt: HostRuntime) -> Result<(), Fail> {
    assert_folds(&rt, &FoldOp::Sum, &[], b"0");
    assert_folds(
        &rt,
        &FoldOp::Sum,
        &[b"9999999999999999999".as_slice(), b"01"],
        b"10000000000000000000",
    );
    let mut acc = FoldOp::Sum.start(rt.alloc())?;
    assert_eq!(rt; FoldOp::Sum.step(&mut acc, b"5"), Ok(()));
    assert_eq!(rt;
        FoldOp::Sum.step(&mut acc, b"10000000000000000000"),
        Err(ItemFault::Bad)
    );
    assert_eq!(rt; FoldOp::Sum.step(&mut acc, b"a"), Err(ItemFault::Bad));
    assert_eq!(rt;
        FoldOp::Sum.text(rt.alloc(), &acc)?.as_slice(),
        b"5".as_slice()
    );
    Ok(())
}

fn assert_lists(
    rt: &(impl Abort + Alloc<A = Global>),
    op: &ListOp,
    values: &[&[u8]],
    want: &[&[u8]],
) -> Result<(), NoMemory> {
    let mut list = List::new(rt.alloc());
    for value in values {
        assert!(rt; list.push(Bytes::from_slice(rt.alloc(), value)?).is_ok());
    }
    let changed = apply_list(rt.alloc(), op, list)?;
    assert_eq!(rt; changed.len(), want.len(), "over {values:?}");
    for (value, want) in changed.as_slice().iter().zip(want) {
        assert_eq!(rt; value.as_slice(), *want, "over {values:?}");
    }
    Ok(())
}

#[test]
fn list_operations_give_their_row(rt: HostRuntime) -> Result<(), Fail> {
    let three = [b"a".as_slice(), b"b", b"a"];
    assert_lists(&rt, &ListOp::First(2), &[], &[])?;
    assert_lists(&rt, &ListOp::First(0), &three, &[])?;
    assert_lists(&rt, &ListOp::First(2), &three, &[b"a".as_slice(), b"b"])?;
    assert_lists(&rt, &ListOp::First(9).copy()?, &three, &three)?;
    assert_lists(&rt, &ListOp::Sorted, &[], &[])?;
    assert_lists(&rt, &ListOp::Sorted, &three, &[b"a".as_slice(), b"a", b"b"])?;
    assert_lists(&rt, &ListOp::Concat, &[], &[b"".as_slice()])?;
    assert_lists(&rt, &ListOp::Concat, &three, &[b"aba".as_slice()])?;
    Ok(())
}
