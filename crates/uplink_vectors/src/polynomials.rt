use gf256_core::Uat;
use poly256::Poly;

// Whether these are the coefficients, lowest power first.
fn has(polynomial: &Poly<8>, coefficients: &[u8]) -> bool {
    let mut equal = polynomial.degree() == coefficients.len().checked_sub(1);
    for (power, coefficient) in coefficients.iter().enumerate() {
        equal = equal && polynomial.coefficient(power).byte() == *coefficient;
    }
    equal
}

// The product, where it has room.
fn product(first: &Poly<8>, second: &Poly<8>) -> Option<Poly<8>> {
    match (first.degree(), second.degree()) {
        (Some(m), Some(n)) => {
            if m < 8 && n < 8 - m {
                Some(first.mul(second))
            } else {
                None
            }
        }
        _ => Some(first.mul(second)),
    }
}

// The quotient and the rest, where the divisor is not 0.
fn division(dividend: &Poly<8>, divisor: &Poly<8>) -> Option<(Poly<8>, Poly<8>)> {
    match divisor.degree() {
        Some(_) => Some(dividend.div_rem(divisor)),
        None => None,
    }
}

#[test]
fn zeros_at_the_end_are_dropped(rt: HostRuntime) {
    let two = Poly::<8>::of(&[7, 0, 9, 0, 0]);
    assert!(rt; has(&two, &[7, 0, 9]));
    assert_eq!(rt; two.degree(), Some(2));
    assert_eq!(rt; two.coefficient(5).byte(), 0);
    assert_eq!(rt; two.coefficient(8).byte(), 0);
    assert!(rt; has(&Poly::<8>::of(&[0, 0]), &[]));
}

#[test]
fn zero_has_no_degree(rt: HostRuntime) {
    let zero = Poly::<8>::zero();
    assert_eq!(rt; zero.degree(), None);
    assert_eq!(rt; zero.eval(Uat::of(5)).byte(), 0);
    assert!(rt; has(&zero.derivative(), &[]));
}

#[test]
fn room_may_be_full(rt: HostRuntime) {
    let one = Poly::<1>::of(&[5]);
    assert_eq!(rt; one.coefficient(0).byte(), 5);
    let full = Poly::<8>::of(&[1, 2, 3, 4, 5, 6, 7, 8]);
    assert_eq!(rt; full.degree(), Some(7));
    let most = Poly::<1024>::of(&[1; 1024]);
    assert_eq!(rt; most.degree(), Some(1023));
}

#[test]
fn a_sum_may_have_a_lower_degree(rt: HostRuntime) {
    let first = Poly::<8>::of(&[1, 2, 3]);
    let second = Poly::<8>::of(&[4, 2, 3]);
    assert!(rt; has(&first.add(&second), &[5]));
    assert!(rt; has(&first.add(&first), &[]));
    assert!(rt; has(&first.add(&Poly::<8>::zero()), &[1, 2, 3]));
}

#[test]
fn the_square_of_a_sum_is_the_sum_of_squares(rt: HostRuntime) {
    let line = Poly::<8>::of(&[1, 2]);
    let square = product(&line, &line).expect(&rt, "room");
    assert!(rt; has(&square, &[1, 0, 4]));
    let nothing = product(&line, &Poly::<8>::zero()).expect(&rt, "room");
    assert!(rt; has(&nothing, &[]));
    let cube = Poly::<8>::of(&[0, 0, 0, 1]);
    let fourth = Poly::<8>::of(&[1, 0, 0, 0, 1]);
    let filled = product(&cube, &fourth).expect(&rt, "room");
    assert!(rt; has(&filled, &[0, 0, 0, 1, 0, 0, 0, 1]));
}

#[test]
fn even_powers_have_no_derivative(rt: HostRuntime) {
    let cubic = Poly::<8>::of(&[1, 3, 5, 7]);
    assert!(rt; has(&cubic.derivative(), &[3, 0, 7]));
}

#[test]
fn values_are_those_of_the_sum_of_terms(rt: HostRuntime) {
    let cubic = Poly::<8>::of(&[1, 3, 5, 7]);
    assert_eq!(rt; cubic.eval(Uat::of(0)).byte(), 1);
    assert_eq!(rt; cubic.eval(Uat::of(2)).byte(), 0x2b);
    assert_eq!(rt; cubic.eval(Uat::of(0x87)).byte(), 0x8b);
    assert_eq!(rt; Poly::<8>::of(&[1, 2]).eval(Uat::of(0xc3)).byte(), 0);
}

#[test]
fn a_division_leaves_a_rest_of_lower_degree(rt: HostRuntime) {
    let dividend = Poly::<8>::of(&[0x11, 0x22, 0x33, 0x44, 0x55]);
    let divisor = Poly::<8>::of(&[0x03, 0x87, 0x02]);
    let (quotient, rest) = division(&dividend, &divisor).expect(&rt, "a divisor");
    assert!(rt; has(&quotient, &[0xbf, 0xad, 0xe9]));
    assert!(rt; has(&rest, &[0x57, 0x70]));
    let (none, whole) = division(&divisor, &dividend).expect(&rt, "a divisor");
    assert!(rt; has(&none, &[]));
    assert!(rt; has(&whole, &[0x03, 0x87, 0x02]));
}
