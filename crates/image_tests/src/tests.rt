// What no clause says: what is found in images made by hand and which of them mount, which device calls a
// store makes in which order, and what follows a fault.
mod bench;
mod broken;
mod faults;
mod images;
mod mounts;
mod order;
mod reading;
mod room;
mod verdicts;
