//! The groups of empty blocks, one record each.
ghost use Rattle.std.specs.Prelude.{◌≡◌, ℕ, ◌+◌, ◌<◌, ◌≤◌, true, false, IfOk, All, length};
ghost use Rattle.std.specs.Prelude.{slice_get, slice_index, Some};
ghost use Rattle.std.specs.List.Sorted.{IsStrictlyIncreasing};
ghost use Rattle.radar_core.specs.Keys.{first_high};
ghost use Rattle.radar_core.specs.Groups.{blank_groups, is_joined};

use crate::part::RING;
use std::alloc::{AllocError, Global};
use std::marker::Model;

/// The furthest block that one record can name.
const FURTHEST: u32 = 116;

/// Groups of block numbers. A contract sees them as a list of rising lists.
#[derive(Debug, Drop)]
pub struct Groups {
    groups: Vec<Vec<u32>>,
}

impl Model for Groups {
    ghost use Rattle.std.specs.Prelude.{ℕ, List, map};

    ghost Value = { List (List ℕ) };

    ghost view = { λ g. map (λ group. group.items) g.groups.items };
}

impl Groups {
    /// How many groups there are.
    pub fn len(&self) -> usize
        ensures { result ≡ length self.now }
    {
        self.groups.len()
    }

    /// The group at a place, counted from 0.
    pub fn at(&self, place: usize) -> &[u32]
        requires { place < length self.now }
        ensures { slice_get self.now place ≡ Some result.now }
    {
        self.groups[place].as_slice()
    }
}

/// The groups of the rising numbers of blocks that are empty: each fits one record.
///
/// # Errors
///
/// `AllocError` where memory runs out.
pub fn group_blanks(alloc: Global, numbers: &[u32]) -> Result<Groups, AllocError>
    requires rises { IsStrictlyIncreasing numbers.now }
    requires some { 0 < length numbers.now }
    requires fits { All (λ number. number < first_high) numbers.now }
    ensures { IfOk result (λ groups. groups ≡ blank_groups numbers.now) }
{
    let mut groups = Vec::new(alloc);
    let mut left = numbers;
    while !left.is_empty() {
        let (group, behind) = left.split_at(group_length(left));
        groups.push(Vec::from_slice(alloc, group)?)?;
        left = behind;
    }
    Ok(Groups { groups })
}

/// How many of some rising numbers are of the group that begins with the first.
fn group_length(numbers: &[u32]) -> usize
    requires some { 0 < length numbers.now }
    requires fits { All (λ number. number < first_high) numbers.now }
    ensures some { 1 ≤ result }
    ensures most { result ≤ length numbers.now }
    ensures joined { (k : ℕ) → k < result
        → is_joined (slice_index numbers.now 0) (slice_index numbers.now k) ≡ true }
    ensures ends { result < length numbers.now
        → is_joined (slice_index numbers.now 0) (slice_index numbers.now result) ≡ false }
{
    let base = numbers[0];
    for (place, number) in numbers.iter().enumerate() {
        if *number > base + FURTHEST || *number / RING != base / RING {
            return place;
        }
    }
    numbers.len()
}
