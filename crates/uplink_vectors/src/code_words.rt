//! Code words of the uplink's blocks, and of codes of other sizes.
use gf256_core::Uat;
use poly256::Poly;
use rs_code::{Rs, Uncorrectable, UplinkCode};

// The coefficients of the product of x - a^j for j from 120 to 138, highest power first.
pub(crate) const NINETEEN_ROOTS: [u8; 20] = [
    0x01, 0x3d, 0xc8, 0x90, 0x7c, 0x89, 0x62, 0xd8, 0x24, 0x08, 0x4e, 0x55, 0xc6, 0x6a, 0xb4, 0xbf,
    0x0c, 0xb3, 0x73, 0x82,
];

// The product, where it has room.
fn product(first: &Poly<32>, second: &Poly<32>) -> Option<Poly<32>> {
    match (first.degree(), second.degree()) {
        (Some(m), Some(n)) => {
            if m < 32 && n < 32 - m {
                Some(first.mul(second))
            } else {
                None
            }
        }
        _ => Some(first.mul(second)),
    }
}

#[test]
fn zeros_are_a_code_word_with_nothing_to_correct(rt: HostRuntime) {
    let code = UplinkCode::new();
    let mut word = [0; 92];
    assert!(rt; code.is_codeword(&word));
    assert_eq!(rt; code.correct(&mut word), Ok(0));
    assert!(rt; word == [0; 92]);
}

#[test]
fn wrong_bytes_become_right_and_are_counted(rt: HostRuntime) {
    let code = UplinkCode::new();
    let mut word = [0; 92];
    for i in 0..10 {
        word[i] = 0xff;
    }
    assert_eq!(rt; code.correct(&mut word), Ok(10));
    assert!(rt; word == [0; 92]);
    word[91] = 1;
    assert_eq!(rt; code.correct(&mut word), Ok(1));
    assert!(rt; word == [0; 92]);
}

#[test]
fn the_product_of_nineteen_roots_is_no_code_word(rt: HostRuntime) {
    let mut polynomial = Poly::<32>::of(&[1]);
    for j in 120..139 {
        let factor = Poly::<32>::of(&[Uat::pow_alpha(j).byte(), 1]);
        let more = product(&polynomial, &factor);
        assert!(rt; more.is_some());
        if let Some(more) = more {
            polynomial = more;
        }
    }
    assert_eq!(rt; polynomial.degree(), Some(19));
    let mut word = [0; 92];
    for i in 0..20 {
        word[72 + i] = polynomial.coefficient(19 - i).byte();
        assert_eq!(rt; word[72 + i], NINETEEN_ROOTS[i]);
    }
    for j in 120..139 {
        assert_eq!(rt; polynomial.eval(Uat::pow_alpha(j)).byte(), 0);
    }
    assert!(rt; polynomial.eval(Uat::pow_alpha(139)).byte() != 0);
    let before = word;
    let code = UplinkCode::new();
    assert!(rt; !code.is_codeword(&word));
    assert_eq!(rt; code.correct(&mut word), Err(Uncorrectable));
    assert!(rt; word == before);
}

#[test]
fn the_code_of_a_basic_adsb_block_has_the_parity_of_its_definition(rt: HostRuntime) {
    let parity = [
        0x2f, 0xcb, 0xc9, 0xbf, 0x19, 0x44, 0x35, 0x03, 0xd4, 0x41, 0x55, 0xff,
    ];
    let mut word = [0; 30];
    for i in 0..18 {
        word[i] = i as u8 + 1;
    }
    let mut wanted = word;
    for i in 0..12 {
        wanted[18 + i] = parity[i];
    }
    let code = Rs::<30, 12, 120>::new();
    code.encode(&mut word);
    assert!(rt; word == wanted);
    assert!(rt; code.is_codeword(&word));
    assert_eq!(rt; code.correct(&mut word), Ok(0));
    word[29] = 0xfe;
    assert!(rt; !code.is_codeword(&word));
    for i in 0..5 {
        word[i] = 0xff;
    }
    assert_eq!(rt; code.correct(&mut word), Ok(6));
    assert!(rt; word == wanted);
}

#[test]
fn the_code_of_a_long_adsb_block_has_the_parity_of_its_definition(rt: HostRuntime) {
    let parity = [
        0x63, 0x4d, 0xb5, 0xb6, 0x51, 0x80, 0x0a, 0x3e, 0xd1, 0x81, 0xb2, 0x1c, 0x27, 0xf4,
    ];
    let mut word = [0xff; 48];
    for i in 0..34 {
        word[i] = 5 * i as u8 + 9;
    }
    let mut wanted = word;
    for i in 0..14 {
        wanted[34 + i] = parity[i];
    }
    let code = Rs::<48, 14, 120>::new();
    code.encode(&mut word);
    assert!(rt; word == wanted);
    assert!(rt; code.is_codeword(&word));
    assert_eq!(rt; code.correct(&mut word), Ok(0));
    word[47] = 0xf5;
    for i in 0..6 {
        word[i] = 0xff;
    }
    assert_eq!(rt; code.correct(&mut word), Ok(7));
    assert!(rt; word == wanted);
}

#[test]
fn a_code_whose_roots_begin_elsewhere_mends_a_wrong_byte(rt: HostRuntime) {
    let code = Rs::<4, 2, 250>::new();
    let wanted = [0x11, 0x22, 0x4c, 0xb2];
    for i in 0..4 {
        let mut word = wanted;
        word[i] = 0xff;
        assert_eq!(rt; code.correct(&mut word), Ok(1));
        assert!(rt; word == wanted);
    }
}

#[test]
fn the_first_bytes_of_a_word_of_100_are_mended(rt: HostRuntime) {
    let code = Rs::<100, 20, 120>::new();
    let mut word = [0; 100];
    for i in 0..10 {
        word[i] = 0xff;
    }
    assert_eq!(rt; code.correct(&mut word), Ok(10));
    assert!(rt; word == [0; 100]);
}

#[test]
fn a_code_with_24_roots_mends_twelve_wrong_bytes(rt: HostRuntime) {
    let code = Rs::<92, 24, 120>::new();
    let mut word = [0; 92];
    for i in 0..12 {
        word[7 * i] = i as u8 + 1;
    }
    assert_eq!(rt; code.correct(&mut word), Ok(12));
    assert!(rt; word == [0; 92]);
}
