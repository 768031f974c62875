//! Laws of the definitions, for the crates above: each is the contract of a function that does nothing.
ghost use Rattle.radar_core.specs.Laws.{BlankRecordsReadBack, GroupsAreRecords};
ghost use Rattle.radar_core.specs.Laws.{LongestRunsAreFewest, RunRecordsReadBack};
ghost use Rattle.radar_core.specs.Spelling.{BlocksAreSpelled, SpelledBlocksFit};

/// The law that the run record of a block reads back as that block.
#[inline]
pub fn run_records_read_back()
    ensures { RunRecordsReadBack }
{}

/// The law that the empty record of a group reads back as the blocks of the group.
#[inline]
pub fn blank_records_read_back()
    ensures { BlankRecordsReadBack }
{}

/// The law that the longest runs of some cells spell them, and that no fewer do.
#[inline]
pub fn longest_runs_are_fewest()
    ensures { LongestRunsAreFewest }
{}

/// The law that the groups of rising numbers are a partition of them, and that one record names each group.
#[inline]
pub fn groups_are_records()
    ensures { GroupsAreRecords }
{}

/// The law that a payload is read as the blocks that it spells, and as no others.
#[inline]
pub fn blocks_are_spelled()
    ensures { BlocksAreSpelled }
{}

/// The law that each block that a payload spells has a key that fits, and 128 intensities.
#[inline]
pub fn spelled_blocks_fit()
    ensures { SpelledBlocksFit }
{}
