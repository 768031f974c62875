//! The products that are read (RTCA DO-358).

/// Radar of a region.
pub const REGIONAL_RADAR: u16 = 63;

/// Radar of the whole country.
pub const CONUS_RADAR: u16 = 64;

/// Text: reports.
pub const TEXT_PRODUCT: u16 = 413;
