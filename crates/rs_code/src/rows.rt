//! Multiples of the rows of a table: a row stands there eight times, times 1, 2, 4 and so on up to 128.
ghost use Rattle.std.specs.Prelude.{◌+◌, ◌*◌, ◌<◌, ◌≤◌, length, slice_index};
ghost use Rattle.rs_code.specs.Rows.{HasAdded, HasBitRows, power_times, row_times};

use crate::place_powers::place_powers;
use crate::root_powers::root_powers;
use gf256_core::UatTables;
use gf256_core::laws::field_laws;

// Adds the row that begins at a place of a table to a list.
#[inline]
fn add_row<const WIDTH: usize>(list: &mut [u8; WIDTH], table: &[u8], start: usize)
    requires { start + WIDTH ≤ length table.now }
    ensures { HasAdded WIDTH list.old list.new (λ k. slice_index table.now (start + k)) }
{
    for k in 0..WIDTH {
        list[k] ^= table[start + k];
    }
}

// Adds an element times a row to a list. The element is the sum of the powers of 2 whose bits it has.
#[inline]
fn add_row_times<const WIDTH: usize>(list: &mut [u8; WIDTH], factor: u8, table: &[u8], start: usize)
    requires room { start + WIDTH * 8 ≤ length table.now }
    requires rows { HasBitRows WIDTH table.now start }
    ensures { HasAdded WIDTH list.old list.new (row_times factor table.now start) }
{
    field_laws::<UatTables>();
    let mut rest = factor;
    for bit in 0..8 {
        if rest % 2 == 1 {
            add_row(list, table, start + WIDTH * bit);
        }
        rest /= 2;
    }
}

// Adds to the value at each of 96 points a coefficient times this power of the point.
#[inline]
pub(crate) fn add_to_values(values: &mut [u8; 96], coefficient: u8, power: usize)
    requires { power < 11 }
    ensures { HasAdded 96 values.old values.new (power_times coefficient (λ k. power * k)) }
{
    field_laws::<UatTables>();
    add_row_times(values, coefficient, place_powers(), 768 * power);
}

// Adds to the value at each of 32 roots from 2 raised to 120 on a byte times this power of the root.
#[inline]
pub(crate) fn add_to_sums(sums: &mut [u8; 32], byte: u8, power: usize)
    requires { power < 20 }
    ensures { HasAdded 32 sums.old sums.new (power_times byte (λ k. (120 + k) * power)) }
{
    field_laws::<UatTables>();
    add_row_times(sums, byte, root_powers(), 256 * power);
}
