//! Rounds one after another: their lanes, their records, and rounds that are read, merged and segmented.
mod captures;
mod crowded;
mod examples;
mod frames;
mod jumbo;
mod lane_rows;
mod long_runs;
mod merging;
mod segments;
mod sides;
mod working;
mod writing;
