// Runs of the procedure of two folders in memory, and what a region of one of them keeps.

mod picks;
mod runs;
