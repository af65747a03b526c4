// Numbers of workers.

/// The words of runs by 1, 2, 3, 4 and 64 workers.
pub const EACH_NUMBER: [&[&str]; 5] = [
    &["run", "t", "i", "1"],
    &["run", "t", "i", "2"],
    &["run", "t", "i", "3"],
    &["run", "t", "i", "4"],
    &["run", "t", "i", "64"],
];
