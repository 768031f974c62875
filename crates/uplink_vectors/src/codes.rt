use rs_code::{Rs, UplinkCode};

// The parity in these tests was worked out by solving the power sums for it.

#[test]
fn the_last_message_byte_alone_has_the_generator_behind_it(rt: HostRuntime) {
    let code = UplinkCode::new();
    let parity = [
        0x9b, 0x91, 0x8c, 0x91, 0xe1, 0x4f, 0x0c, 0x7c, 0x91, 0x6c, 0x3a, 0xa2, 0x8e, 0x42, 0xcb,
        0x37, 0x80, 0x7b, 0xb4, 0x62,
    ];
    let mut wanted = [0; 92];
    wanted[71] = 1;
    let mut word = wanted;
    for i in 0..20 {
        wanted[72 + i] = parity[i];
        word[72 + i] = 0xa5;
    }
    code.encode(&mut word);
    assert!(rt; word == wanted);
    assert!(rt; code.is_codeword(&word));
}

#[test]
fn of_a_code_without_roots_every_word_is_a_code_word(rt: HostRuntime) {
    let code = Rs::<4, 0, 7>::new();
    let mut word = [1, 2, 3, 0xff];
    assert!(rt; code.is_codeword(&word));
    assert_eq!(rt; code.correct(&mut word), Ok(0));
    code.encode(&mut word);
    assert!(rt; word == [1, 2, 3, 0xff]);
}

#[test]
fn a_code_with_two_roots_has_its_own_parity(rt: HostRuntime) {
    let code = Rs::<4, 2, 250>::new();
    let mut word = [0x11, 0x22, 9, 9];
    code.encode(&mut word);
    assert!(rt; word == [0x11, 0x22, 0x4c, 0xb2]);
    assert!(rt; code.is_codeword(&word));
    word[3] = 0xb3;
    assert!(rt; !code.is_codeword(&word));
}
