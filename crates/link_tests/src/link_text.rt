use lis_text::*;
use std::mem::drop;
use std::process::Abort;

#[test]
fn texts_are_at_most_65536(rt: HostRuntime) {
    let mut texts = Texts::new(rt.alloc());
    for _ in 0..65_536u32 {
        assert!(rt; texts.push(LinkText::new(rt.alloc())).is_ok());
    }
    assert!(rt;
        matches!(
            texts.push(LinkText::new(rt.alloc())),
            Err(TextRefused::Full(_))
        )
    );
    let reported = (texts.len(), texts.get(65_535).is_some());
    drop(texts);
    assert!(rt; reported == (65_536, true));
}

#[test]
fn a_link_text_is_tested_for_its_length_first(rt: HostRuntime) {
    let mut long = vec![in rt.alloc(); 0x41; 1_048_576].expect(&rt, "memory");
    assert!(rt; long.push(b'\n').is_ok());
    assert!(rt; check_text(long.as_slice()) == Err(TextFault::TooLong));
    let (most, _) = long.as_slice().split_at(1_048_576);
    assert!(rt; check_text(most).is_ok());
    drop(long);
    assert!(rt; check_text(b"A\n") == Err(TextFault::Forbidden(1)));
}

#[test]
fn texts_are_copied(rt: HostRuntime) {
    let texts = Texts::from_slices(rt.alloc(), &[b"AB".as_slice(), b"".as_slice()]);
    let texts = texts.expect(&rt, "memory");
    let copy = texts.copy(rt.alloc()).expect(&rt, "memory");
    drop(texts);
    assert_texts(&rt, copy.as_slice());
    drop(copy);
}

/// Fails where texts aren't `AB` and an empty one.
fn assert_texts(rt: &impl Abort, texts: &[LinkText]) {
    let [first, second] = texts else {
        panic!(rt; "not two texts");
    };
    assert!(rt; first.as_slice() == b"AB".as_slice());
    assert!(rt; second.is_empty());
}

#[test]
fn lists_are_equal_by_their_items(rt: HostRuntime) {
    let texts = Texts::from_slices(rt.alloc(), &[b"AB".as_slice(), b"AC", b"AB"]);
    let texts = texts.expect(&rt, "memory");
    let [first, second, third] = texts.as_slice() else {
        panic!(rt; "not three texts");
    };
    assert!(rt; first == third && first != second);
    drop(texts);
}

#[test]
fn a_new_list_reserves_nothing(rt: HostRuntime) {
    assert!(rt; LinkText::new(rt.alloc()).into_vec().capacity() == 0);
}
