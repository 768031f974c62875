//! The wrong places of a word, from its locator.
ghost use Rattle.std.specs.Prelude.{◌≡◌, ◌<◌, ◌≤◌, length, take};
ghost use Rattle.poly256.specs.Polynomial.{value_at};
ghost use Rattle.rs_code.specs.Mending.{points_of, zero_places, AreValues, AreZeros};

use crate::product::times;
use crate::rows::add_to_values;
use gf256_core::laws::field_laws;
use gf256_core::{Uat, UatTables};
use poly256::laws::value_laws;

// The value of a polynomial at a point, from the last coefficient to the first.
#[inline]
fn value_of(polynomial: &[u8], point: Uat) -> Uat
    ensures value { result ≡ value_at polynomial.now point }
    ensures fits { result < 256 }
{
    value_laws();
    let mut value = Uat::of(0);
    let mut power = polynomial.len();
    while power > 0 {
        power -= 1;
        value = Uat::of(polynomial[power]).add(times(point, value));
    }
    value
}

// Writes the values of a polynomial at the points of the places of a word.
fn write_values<const N: usize>(polynomial: &[u8], values: &mut [u8; N])
    requires { N ≤ 255 }
    ensures { AreValues N polynomial.now values.new }
{
    for place in 0..N {
        values[place] = value_of(polynomial, Uat::pow_alpha(place as u32)).byte();
    }
}

// The values of a polynomial of degree at most 10 at the points of 96 places.
#[inline]
fn values_by_rows(polynomial: &[u8]) -> [u8; 96]
    requires { length polynomial.now ≤ 11 }
    ensures { AreValues 96 polynomial.now result }
{
    field_laws::<UatTables>();
    value_laws();
    let mut values = [0; 96];
    for (power, coefficient) in polynomial.iter().enumerate() {
        add_to_values(&mut values, *coefficient, power);
    }
    values
}

// How many of the first `N` values of a polynomial at the points of places are 0. The places are written into a room, the
// highest first.
#[inline]
fn find_zeros<const N: usize>(values: &[u8], places: &mut [u8; N]) -> usize
    requires short { N ≤ 255 }
    requires room { N ≤ length values.now }
    ensures places { AreZeros N values.now (take result places.new) }
    ensures within { result ≤ N }
    ensures long { length places.new ≡ N }
{
    let mut found = 0;
    for i in 0..N {
        let place = N - 1 - i;
        if values[place] == 0 {
            places[found] = place as u8;
            found += 1;
        }
    }
    found
}

// How many places of a word of `N` bytes have points at which a polynomial is 0. The places are written into a room, the
// highest first.
pub(crate) fn find_places<const N: usize>(polynomial: &[u8], places: &mut [u8; N]) -> usize
    requires { N ≤ 255 }
    ensures places { take result places.new ≡ zero_places polynomial.now N }
    ensures within { result ≤ N }
    ensures long { length places.new ≡ N }
{
    if N <= 96 {
        if polynomial.len() <= 11 {
            return find_zeros(&values_by_rows(polynomial), places);
        }
    }
    let mut values = [0; N];
    write_values(polynomial, &mut values);
    find_zeros(&values, places)
}

// Writes the points of these places into a room.
pub(crate) fn write_points<const N: usize>(places: &[u8], points: &mut [u8; N])
    requires { length places.now ≤ N }
    ensures { take (length places.now) points.new ≡ points_of places.now }
{
    for (i, place) in places.iter().enumerate() {
        points[i] = Uat::pow_alpha(u32::from(*place)).byte();
    }
}
