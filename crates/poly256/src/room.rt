ghost use Rattle.std.specs.Prelude.{◌≡◌, ◌+◌, ◌-◌, ◌<◌, ◌≤◌, ℕ, length, take, slice_index};
ghost use Rattle.poly256.specs.Polynomial.{sum_of, scaled_coefficients, raised_coefficients};
ghost use Rattle.poly256.specs.Polynomial.{list_product, derivative_of, value_at};
ghost use Rattle.poly256.specs.Polynomial.{trimmed_coefficients};

use gf256_core::laws::field_laws;
use gf256_core::{Uat, UatTables};

// Adds the polynomial `list` to the one in `room`.
#[inline]
pub(crate) fn add_list(room: &mut [u8], list: &[u8])
    requires { length list.now ≤ length room.old }
    ensures { room.new ≡ sum_of room.old list.now }
{
    for (i, coefficient) in list.iter().enumerate() {
        room[i] ^= *coefficient;
    }
}

// Adds `factor` times x^place times the polynomial `list` to the one in `room`.
#[inline]
pub(crate) fn add_multiple(room: &mut [u8], place: usize, factor: Uat, list: &[u8])
    requires { place + length list.now ≤ length room.old }
    ensures { room.new
        ≡ sum_of room.old (raised_coefficients place (scaled_coefficients factor list.now)) }
{
    for (i, coefficient) in list.iter().enumerate() {
        let term = factor.mul(Uat::of(*coefficient));
        room[place + i] ^= term.byte();
    }
}

// How many coefficients are left without the zeros at the end.
#[inline]
pub(crate) fn trimmed_len(list: &[u8]) -> usize
    ensures value { take result list.now ≡ trimmed_coefficients list.now }
    ensures within { result ≤ length list.now }
    ensures bytes { (k : ℕ) → slice_index list.now k < 256 }
{
    let mut len = list.len();
    while len > 0 && list[len - 1] == 0 {
        len -= 1;
    }
    len
}

// Adds the product of two polynomials to the one in `room`.
#[inline]
pub(crate) fn add_product(room: &mut [u8], first: &[u8], second: &[u8])
    requires first { length first.now ≤ length room.old }
    requires product { 0 < length second.now →
        length first.now + length second.now ≤ length room.old + 1 }
    ensures { room.new ≡ sum_of room.old (list_product first.now second.now) }
{
    for (place, factor) in first.iter().enumerate() {
        add_multiple(room, place, Uat::of(*factor), second);
    }
}

// Writes the derivative of the polynomial `list` into a room of zeros. Only odd powers have one: an even number of times an
// element is 0.
#[inline]
pub(crate) fn write_derivative(room: &mut [u8], list: &[u8])
    requires room { length list.now ≤ length room.old }
    requires zeros { (k : ℕ) → slice_index room.old k ≡ 0 }
    ensures { (k : ℕ) → slice_index room.new k ≡ slice_index (derivative_of list.now) k }
{
    let mut power = 1;
    while power < list.len() {
        room[power - 1] = list[power];
        power += 2;
    }
}

// Divides the polynomial in `rest`, whose coefficients from x^len on are 0, by `divisor`: the quotient is written into a
// room of zeros, and the rest stays.
#[inline]
pub(crate) fn divide(rest: &mut [u8], quotient: &mut [u8], len: usize, divisor: &[u8])
    requires rest { len ≤ length rest.old }
    requires quotient { len ≤ length quotient.old }
    requires lead { 0 < slice_index divisor.now (length divisor.now - 1) }
    requires zeros { (k : ℕ) → slice_index quotient.old k ≡ 0 }
    requires past { (k : ℕ) → len ≤ k → slice_index rest.old k ≡ 0 }
    ensures whole { (k : ℕ) →
        slice_index (sum_of (list_product quotient.new divisor.now) rest.new) k
        ≡ slice_index rest.old k }
    ensures lower { (k : ℕ) → length divisor.now - 1 ≤ k → slice_index rest.new k ≡ 0 }
    ensures short { (k : ℕ) → len ≤ k → slice_index quotient.new k ≡ 0 }
{
    field_laws::<UatTables>();
    let lead = Uat::of(divisor[divisor.len() - 1]);
    let mut top = len;
    while top >= divisor.len() {
        let place = top - divisor.len();
        let factor = Uat::of(rest[top - 1]).div(lead);
        quotient[place] = factor.byte();
        add_multiple(rest, place, factor, divisor);
        top -= 1;
    }
}

// The value of the polynomial `list` at an element: the coefficients are taken from the last to the first.
#[inline]
pub(crate) fn value_of(list: &[u8], at: Uat) -> Uat
    ensures value { result ≡ value_at list.now at }
    ensures fits { result < 256 }
{
    field_laws::<UatTables>();
    let mut value = Uat::of(0);
    let mut power = list.len();
    while power > 0 {
        power -= 1;
        value = Uat::of(list[power]).add(at.mul(value));
    }
    value
}
