//! The polynomial that is 0 at the roots of a code.
ghost use Rattle.std.specs.Prelude.{◌≡◌, ◌+◌, ◌<◌, ◌≤◌, ℕ, ◌∷◌, length, slice_index, bit_xor};
ghost use Rattle.poly256.specs.Polynomial.{element_product};
ghost use Rattle.rs_code.specs.CodeWord.{power_sum};

use gf256_core::laws::field_laws;
use gf256_core::{Uat, UatTables};
use poly256::laws::degree_laws;

// Multiplies a polynomial of this degree by x + root. Its first coefficient is 1 and does not stand in the list, and the
// place after its last one is 0.
#[inline]
fn take_root(coefficients: &mut [u8], degree: usize, root: Uat)
    requires { degree < length coefficients.old }
    ensures written { (k : ℕ) → k ≤ degree → slice_index coefficients.new k
        ≡ bit_xor (slice_index coefficients.old k)
        (element_product root (slice_index (1 ∷ coefficients.old) k)) }
    ensures kept { (k : ℕ) → degree < k →
        slice_index coefficients.new k ≡ slice_index coefficients.old k }
{
    let mut above = Uat::of(1);
    for k in 0..degree + 1 {
        let here = Uat::of(coefficients[k]);
        coefficients[k] = here.add(root.mul(above)).byte();
        above = here;
    }
}

// The polynomial of degree `ROOTS` that is 0 at each root, highest power first. Its first coefficient is 1 and does not
// stand in the list.
pub(crate) fn generator<const ROOTS: usize>(first: usize) -> [u8; ROOTS]
    requires { first + ROOTS ≤ 255 }
    ensures long { length result ≡ ROOTS }
    ensures roots { (j : ℕ) → first ≤ j → j < first + ROOTS → power_sum (1 ∷ result) j ≡ 0 }
{
    field_laws::<UatTables>();
    degree_laws();
    let mut coefficients = [0; ROOTS];
    for degree in 0..ROOTS {
        let root = Uat::pow_alpha((first + degree) as u32);
        take_root(&mut coefficients, degree, root);
    }
    coefficients
}
