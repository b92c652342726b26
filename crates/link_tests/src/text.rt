use lis_text::*;

#[test]
fn a_text_holds_no_forbidden_byte(rt: HostRuntime) {
    for byte in &[1, 2, 3, 4, 5, 6, 10, 16, 17, 18, 19, 20, 21, 22, 23] {
        assert!(rt; check_bytes(&[*byte], 1) == Err(TextFault::Forbidden(0)));
    }
    for byte in &[0, 7, 8, 9, 11, 12, 13, 14, 15, 24, 27, 32, 127, 128, 255] {
        assert!(rt; check_bytes(&[*byte], 1) == Ok(()));
    }
}

#[test]
fn the_sum_ends_before_a_forbidden_byte(rt: HostRuntime) {
    assert!(rt; text_and_sum(b"AAA\nAAAAAAAAAAAAAAAAAAAA") == (Some(3), 195));
}

#[test]
fn a_forbidden_byte_is_found_at_each_place_of_a_long_text(rt: HostRuntime) {
    for forbidden in &[1, 6, 10, 16, 23] {
        for place in 0..200 {
            let mut text = [b'A'; 200];
            text[place] = *forbidden;
            assert!(rt; first_forbidden(&text) == Some(place));
            // 65 for each A.
            assert!(rt; text_and_sum(&text) == (Some(place), (65 * place % 256) as u8));
        }
    }
}

#[test]
fn a_long_text_is_summed_whole(rt: HostRuntime) {
    let mut text = [0u8; 256];
    for place in 0..text.len() {
        text[place] = 32 + (place % 200) as u8;
    }
    for count in 0..=text.len() {
        let (front, _) = text.split_at(count);
        let mut wanted = 0u8;
        for byte in front {
            wanted = wanted.wrapping_add(*byte);
        }
        assert!(rt; text_and_sum(front) == (None, wanted));
    }
}
