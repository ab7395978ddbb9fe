//! How high the rows of a picture stand.

/// The height above the first row.
pub const TOP: u64 = 104;

/// The height of a row.
pub const ROW: u64 = 24;

/// The lifelines' names stand again above each row of that number.
pub const PAGE: usize = 30;

/// They stand in a band of that height.
const BAND: u64 = 28;

/// The height of a row's middle; rows are counted from 0.
pub fn y_of(row: usize) -> u64 {
    let bands = (row / PAGE) as u64;
    (row as u64)
        .saturating_mul(ROW)
        .saturating_add(bands.saturating_mul(BAND))
        .saturating_add(TOP)
}

/// Where so many rows end.
pub fn end_of(rows: usize) -> u64 {
    match rows.checked_sub(1) {
        Some(last) => y_of(last).saturating_add(ROW),
        None => TOP,
    }
}
