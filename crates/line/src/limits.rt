// The limits of document 01 ("What the engine holds", "The block", "The step list") and document 02 (T-05), each once, as in specs/Limits.antt.

// "up to 64 ground stations"; as many questions are answered in one roll call (document 02, T-03).
pub const MOST_STATIONS: usize = 64;

// "a station number from 1 to 999,999"
pub const LARGEST_NUMBER: u32 = 999999;

// "a site code, 0 to 9,999"
pub const LARGEST_SITE: u16 = 9999;

// "The capacity of 32 is ours; the report has none."
pub const CAPACITY: usize = 32;

// "A list has at most 4,096 steps."
pub const MOST_STEPS: usize = 4096;
